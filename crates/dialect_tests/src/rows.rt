//! Lines with their blocks, and what they give: the rows are those of the page that says what the dialect
//! is, and were tried with memcached 1.6.18.

use crate::tell::Row;

const FORMAT: &[u8] = b"CLIENT_ERROR bad command line format\r\n";

const UNKNOWN: &[u8] = b"ERROR\r\n";

const BAD_TIME: &[u8] = b"CLIENT_ERROR invalid exptime argument\r\n";

const BAD_DELTA: &[u8] = b"CLIENT_ERROR invalid numeric delta argument\r\n";

const BAD_DELETE: &[u8] =
    b"CLIENT_ERROR bad command line format.  Usage: delete <key> [noreply]\r\n";

pub const STORAGE: &[Row] = &[
    (b"set k 0 0 5\r\nhello\r\n", b"set k 0 0 hello\n"),
    (b"set k 0 0 5\nhello\r\n", b"set k 0 0 hello\n"),
    (b"add k 7 60 1 noreply\r\nx\r\n", b"add k 7 60 x (quiet)\n"),
    (b"replace k 0 0 0\r\n\r\n", b"replace k 0 0 \n"),
    (b"append k 0 0 1 more\r\nx\r\n", b"append k 0 0 x\n"),
    (b"prepend k +4294967297 0 +1\r\nx\r\n", b"prepend k 1 0 x\n"),
    (
        b"cas k 0 0 1 18446744073709551615\r\nx\r\n",
        b"cas k 0 0 x 18446744073709551615\n",
    ),
    (
        b"cas k 0 0 1 2 noreply\r\nx\r\n",
        b"cas k 0 0 x 2 (quiet)\n",
    ),
    // Of an expiry time the lower 32 bits count, with a sign.
    (b"set k 0 4294967295 1\r\nx\r\n", b"set k 0 -1 x\n"),
    (b"set k 0 2147483648 1\r\nx\r\n", b"set k 0 -2147483648 x\n"),
    (b"set k 0 4294967296 1\r\nx\r\n", b"set k 0 0 x\n"),
    (b"set k 0 -1 1\r\nx\r\n", b"set k 0 -1 x\n"),
    (b"set k 0 -2147483649 1\r\nx\r\n", b"set k 0 2147483647 x\n"),
    (b"set k 0 9223372036854775807 1\r\nx\r\n", b"set k 0 -1 x\n"),
    (b"set k 0 +5 1\r\nx\r\n", b"set k 0 5 x\n"),
    // The value of a refused line is no command.
    (b"set k 0 9223372036854775808 9\r\nflush_all\r\n", FORMAT),
    (b"set k -1 0 9 noreply\r\nflush_all\r\n", b""),
    (b"cas k 0 0 9 x\r\nflush_all\r\n", FORMAT),
    (b"set \x7f 0 0 9\r\nflush_all\r\n", FORMAT),
    // There is no size, so there is no block.
    (
        b"set k 0 0 -1\r\nmn\r\n",
        b"CLIENT_ERROR bad command line format\r\nMN\r\n",
    ),
    (
        b"set k 0 0 2147483646\r\nmn\r\n",
        b"CLIENT_ERROR bad command line format\r\nMN\r\n",
    ),
    (b"set k 0 0\r\nmn\r\n", b"ERROR\r\nMN\r\n"),
    (b"set k 0 0 1 noreply more\r\nmn\r\n", b"ERROR\r\nMN\r\n"),
    (b"cas k 0 0 1\r\nmn\r\n", b"ERROR\r\nMN\r\n"),
    // A block whose end is no line end is read on behind.
    (
        b"set k 0 0 1\r\n5xxmn\r\n",
        b"CLIENT_ERROR bad data chunk\r\nMN\r\n",
    ),
    (b"set k 0 0 1 noreply\r\n5xxmn\r\n", b"MN\r\n"),
];

pub const OTHERS: &[Row] = &[
    (b"delete k\r\n", b"delete k\n"),
    (b"delete k 0\r\n", b"delete k\n"),
    (b"delete k noreply\r\n", b"delete k (quiet)\n"),
    (b"delete k 0 noreply\r\n", b"delete k (quiet)\n"),
    // The first word is a key.
    (b"delete noreply\r\n", b"delete noreply\n"),
    (b"delete noreply 0\r\n", b"delete noreply\n"),
    (b"delete noreply noreply\r\n", b"delete noreply (quiet)\n"),
    (b"delete k 1\r\n", BAD_DELETE),
    (b"delete k 0 0\r\n", BAD_DELETE),
    (b"delete k 1 noreply\r\n", b""),
    (b"delete \x01\r\n", FORMAT),
    (b"delete\r\n", UNKNOWN),
    (b"touch k 4294967295\r\n", b"touch k -1\n"),
    (b"touch k 10 noreply\r\n", b"touch k 10 (quiet)\n"),
    (b"touch k x\r\n", BAD_TIME),
    (b"touch k\r\n", UNKNOWN),
    (b"touch k x noreply\r\n", b""),
    (b"incr k 1\r\n", b"incr k 1\n"),
    (b"incr k +1 noreply\r\n", b"incr k 1 (quiet)\n"),
    (
        b"decr k 18446744073709551615\n",
        b"decr k 18446744073709551615\n",
    ),
    (b"decr k 18446744073709551616\r\n", BAD_DELTA),
    (b"incr k -1\r\n", BAD_DELTA),
    (b"incr k x noreply\r\n", b""),
    (b"incr k\r\n", UNKNOWN),
    (b"version\r\n", b"VERSION 1.6.18-eve-1\r\n"),
    (b"version noreply\r\n", b"VERSION 1.6.18-eve-1\r\n"),
    (b"verbosity 1\r\n", b"OK\r\n"),
    (b"verbosity 1 noreply\r\n", b""),
    (b"verbosity x\r\n", FORMAT),
    (b"verbosity\r\n", UNKNOWN),
    (b"flush_all\r\n", b"CLIENT_ERROR flush_all not allowed\r\n"),
    (b"flush_all 0 noreply\r\n", b""),
    (b"shutdown\r\n", b"ERROR: shutdown not enabled\r\n"),
    (b"mn\r\n", b"MN\r\n"),
    (b"\r\n\n", b"ERROR\r\nERROR\r\n"),
    (b"GET a\r\nnonsense noreply\r\n", b"ERROR\r\nERROR\r\n"),
    (b"quit now\r\nmn\r\n", b"closed\n"),
    (b"GET / HTTP/1.1\r\nmn\r\n", b"closed\n"),
    (b"mn\r\n\x80\x00mn\r\n", b"MN\r\nclosed\n"),
];

// All figures and the settings have no text here.
pub const STATS: &[Row] = &[
    (b"stats\r\nmn\r\n", b"MN\r\n"),
    (b"stats settings\r\nmn\r\n", b"MN\r\n"),
    (b"stats reset\r\n", b"RESET\r\n"),
    (b"stats reset noreply\r\n", b"RESET\r\n"),
    (b"stats items\r\n", b"END\r\n"),
    (b"stats conns\r\n", b"END\r\n"),
    (
        b"stats slabs\r\n",
        b"STAT active_slabs 0\r\nSTAT total_malloced 0\r\nEND\r\n",
    ),
    (b"stats sizes\r\n", b"STAT sizes_status disabled\r\nEND\r\n"),
    (b"stats detail on\r\n", b"OK\r\n"),
    (b"stats detail off noreply\r\n", b"OK\r\n"),
    (b"stats detail dump\r\n", b"END\r\n"),
    (
        b"stats detail\r\n",
        b"CLIENT_ERROR usage: stats detail on|off|dump\r\n",
    ),
    (
        b"stats detail often\r\n",
        b"CLIENT_ERROR usage: stats detail on|off|dump\r\n",
    ),
    (
        b"stats cachedump 1 10\r\n",
        b"CLIENT_ERROR stats cachedump not allowed\r\n",
    ),
    (b"stats noreply\r\n", UNKNOWN),
    (b"stats nonsense\r\n", UNKNOWN),
    (
        b"lru_crawler metadump all\r\n",
        b"ERROR metadump not allowed\r\n",
    ),
    (b"lru_crawler enable\r\n", UNKNOWN),
    (b"lru_crawler\r\n", UNKNOWN),
];

pub const READS: &[Row] = &[
    (b"get a\r\n", b"get a\n"),
    (b"  get   a  b \n", b"get a b\n"),
    (b"gets a noreply\r\n", b"gets a noreply\n"),
    (b"gat 4294967295 a b\r\n", b"gat -1 a b\n"),
    (b"gats 0 a\r\n", b"gats 0 a\n"),
    (b"get\r\n", UNKNOWN),
    (b"gets\r\n", UNKNOWN),
    (b"gat\r\n", UNKNOWN),
    (b"gat x a\r\n", BAD_TIME),
    (b"gat 0\r\n", b"END\r\n"),
    (b"get a \x01\r\n", FORMAT),
    (b"gat 0 \x7f\r\n", FORMAT),
    (b"get a\r\r\n", FORMAT),
];
