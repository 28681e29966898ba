//! Lines of meta commands, and what is told of them: what memcached 1.6.18 asks for, as far as the profile has it.

use crate::tell::Row;

const UNKNOWN: &[u8] = b"ERROR\r\n";

const FORMAT: &[u8] = b"CLIENT_ERROR bad command line format\r\n";

const FLAG: &[u8] = b"CLIENT_ERROR invalid flag\r\n";

const BAD_FLAG: &[u8] = b"CLIENT_ERROR invalid or duplicate flag\r\n";

const TOKEN: &[u8] = b"CLIENT_ERROR bad token in command line format\r\n";

const TWICE: &[u8] = b"CLIENT_ERROR duplicate flag\r\n";

const OPAQUE: &[u8] = b"CLIENT_ERROR opaque token too long\r\n";

const LENGTH: &[u8] = b"CLIENT_ERROR incorrect length for M token\r\n";

pub const READS: &[Row] = &[
    (b"mg k\r\n", b"gets k (meta)\n"),
    (b"  mg  k   v \n", b"gets k (meta value)\n"),
    (
        b"mg k f v s k c Oabc q\r\n",
        b"gets k (meta quiet value flags size kk unique Oabc)\n",
    ),
    (b"mg k T30 v\r\n", b"gats 30 k (meta value)\n"),
    (b"mg k T4294967295\r\n", b"gats -1 k (meta)\n"),
    (b"mg k vx sy\r\n", b"gets k (meta value size)\n"),
    // What memcached takes and does not use.
    (b"mg k u P1 Lx C1 D2 F3 MX\r\n", b"gets k (meta)\n"),
    (
        b"mg k O1234567890123456789012345678901\r\n",
        b"gets k (meta O1234567890123456789012345678901)\n",
    ),
    (b"mg k O12345678901234567890123456789012\r\n", OPAQUE),
    (b"mg\r\n", UNKNOWN),
    (b"mg \x01 v\r\n", FORMAT),
    (b"mg k v v\r\n", TWICE),
    (b"mg k O1 O2\r\n", TWICE),
    (b"mg k z\r\n", FLAG),
    (b"mg k noreply\r\n", FLAG),
    (b"mg k Tx\r\n", TOKEN),
    (b"mg k T\r\n", TOKEN),
    (
        b"mg k Dx\r\n",
        b"CLIENT_ERROR invalid numeric delta value\r\n",
    ),
    (b"mg k Fx\r\n", FORMAT),
    (b"mg k MXX\r\n", LENGTH),
    // What the profile cannot tell: the time that is left, the last access, whether it was read.
    (b"mg k t\r\n", FLAG),
    (b"mg k N30\r\n", FLAG),
    (b"mg a2V5 b v\r\n", FLAG),
];

pub const STORES: &[Row] = &[
    (b"ms k 2\r\nab\r\n", b"set k 0 0 ab (meta)\n"),
    (b"ms k +2 F+5 T60\r\nab\r\n", b"set k 5 60 ab (meta)\n"),
    (
        b"ms k 2 F4294967297 T-1\r\nab\r\n",
        b"set k 1 -1 ab (meta)\n",
    ),
    (
        b"ms k 2 MS c k Ox q\r\nab\r\n",
        b"set k 0 0 ab (meta quiet c0 kk Ox)\n",
    ),
    (b"ms k 2 ME\r\nab\r\n", b"add k 0 0 ab (meta)\n"),
    (b"ms k 2 MR\r\nab\r\n", b"replace k 0 0 ab (meta)\n"),
    (b"ms k 2 MA\r\nab\r\n", b"append k 0 0 ab (meta)\n"),
    (b"ms k 2 MP\r\nab\r\n", b"prepend k 0 0 ab (meta)\n"),
    (b"ms k 2 C7\r\nab\r\n", b"cas k 0 0 ab 7 (meta)\n"),
    (b"ms k 2 MR C7 F1\r\nab\r\n", b"cas k 1 0 ab 7 (meta)\n"),
    (b"ms k 2 ME C7\r\nab\r\n", b"add k 0 0 ab (meta)\n"),
    (b"ms k 0\r\n\r\n", b"set k 0 0  (meta)\n"),
    // The block of a refused line is no command.
    (b"ms k 9 MA C7\r\nflush_all\r\n", FLAG),
    (b"ms k 9 MP C7\r\nflush_all\r\n", FLAG),
    (b"ms k 9 z\r\nflush_all\r\n", FLAG),
    (b"ms k 9 I\r\nflush_all\r\n", FLAG),
    (b"ms k 9 q noreply\r\nflush_all\r\n", FLAG),
    (b"ms k 9 F1 F2\r\nflush_all\r\n", TWICE),
    (b"ms k 9 Fx\r\nflush_all\r\n", FORMAT),
    (b"ms k 9 Cx\r\nflush_all\r\n", TOKEN),
    (b"ms k 9 T\r\nflush_all\r\n", TOKEN),
    (b"ms k 9 Mset\r\nflush_all\r\n", LENGTH),
    (
        b"ms k 9 MX\r\nflush_all\r\n",
        b"CLIENT_ERROR invalid mode for ms M token\r\n",
    ),
    (b"ms \x7f 9\r\nflush_all\r\n", FORMAT),
    // There is no size, so there is no block.
    (
        b"ms k S2\r\nmn\r\n",
        b"CLIENT_ERROR bad command line format\r\nMN\r\n",
    ),
    (
        b"ms k\r\nmn\r\n",
        b"CLIENT_ERROR bad command line format\r\nMN\r\n",
    ),
    (b"ms\r\nmn\r\n", b"ERROR\r\nMN\r\n"),
    (
        b"ms k 2147483646\r\nmn\r\n",
        b"CLIENT_ERROR bad command line format\r\nMN\r\n",
    ),
    // A block whose end is no line end is read on behind, and is told of although the line is quiet.
    (
        b"ms k 1 q\r\n5xxmn\r\n",
        b"CLIENT_ERROR bad data chunk\r\nMN\r\n",
    ),
    (
        b"ms k 1 k Ox\r\n5xxmn\r\n",
        b"CLIENT_ERROR bad data chunk\r\nMN\r\n",
    ),
];

pub const UPDATES: &[Row] = &[
    (b"md k\r\n", b"delete k (meta)\n"),
    (b"md k q k Ox\r\n", b"delete k (meta quiet kk Ox)\n"),
    // A unique is compared by a `cas` of an item that has expired.
    (b"md k C7\r\n", b"cas k 0 -1  7 (meta)\n"),
    (
        b"md k C18446744073709551615 q\r\n",
        b"cas k 0 -1  18446744073709551615 (meta quiet)\n",
    ),
    (b"md k v c T30 MX\r\n", b"delete k (meta value)\n"),
    (b"md\r\n", UNKNOWN),
    (b"md \x7f\r\n", FORMAT),
    (b"md k C\r\n", BAD_FLAG),
    (b"md k C18446744073709551616\r\n", BAD_FLAG),
    (b"md k q q\r\n", BAD_FLAG),
    (b"md k I\r\n", BAD_FLAG),
    (b"md k 0\r\n", BAD_FLAG),
    (b"md k O12345678901234567890123456789012\r\n", OPAQUE),
    (b"ma n\r\n", b"incr n 1 (meta)\n"),
    (b"ma n D5 v k\r\n", b"incr n 5 (meta value kn)\n"),
    (b"ma n MI D+5\r\n", b"incr n 5 (meta)\n"),
    (b"ma n M+\r\n", b"incr n 1 (meta)\n"),
    (
        b"ma n MD D18446744073709551615 q\r\n",
        b"decr n 18446744073709551615 (meta quiet)\n",
    ),
    (b"ma n M-\r\n", b"decr n 1 (meta)\n"),
    (b"ma\r\n", UNKNOWN),
    (b"ma n D\r\n", BAD_FLAG),
    (b"ma n D-1\r\n", BAD_FLAG),
    (b"ma n Mincr\r\n", BAD_FLAG),
    (
        b"ma n MX\r\n",
        b"CLIENT_ERROR invalid mode for ma M token\r\n",
    ),
    // What takes more than one command: a first value, another exptime, a unique.
    (b"ma n N0 J5\r\n", BAD_FLAG),
    (b"ma n T30\r\n", BAD_FLAG),
    (b"ma n C7\r\n", BAD_FLAG),
    (b"ma n c\r\n", BAD_FLAG),
    (b"me k\r\n", UNKNOWN),
    (b"mx k\r\n", UNKNOWN),
];
