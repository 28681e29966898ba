//! The keys of one connection.

ghost use Rattle.std.specs.Prelude.{◌≡◌};
ghost use Rattle.mac.specs.Hmac.{hmac_sha256};
ghost use Rattle.seals.specs.Keys.{handshake_text, session_keys};

use mac::Mac;

/// What both ends of a connection make of the key of their site and of their two hellos. The initiator is who opened
/// the connection, and the responder who accepted it.
#[derive(Clone, Copy)]
pub struct SessionKeys {
    /// The key of what the initiator sends.
    pub initiator_key: [u8; 32],
    /// The key of what the responder sends.
    pub responder_key: [u8; 32],
    /// By this tag the initiator shows that it has the key of the site.
    pub initiator_tag: [u8; 32],
    /// By this tag the responder does so.
    pub responder_tag: [u8; 32],
}

/// The HMAC of a word and of both hellos, each behind its length.
fn made_with(
    word: &[u8; 13],
    site_key: &[u8],
    initiator_hello: &[u8],
    responder_hello: &[u8],
) -> [u8; 32]
    ensures { result ≡ hmac_sha256 site_key.now (handshake_text word.now initiator_hello.now responder_hello.now) }
{
    let mut mac = Mac::new(site_key);
    mac.update(word);
    mac.update(&(initiator_hello.len() as u64).to_be_bytes());
    mac.update(initiator_hello);
    mac.update(&(responder_hello.len() as u64).to_be_bytes());
    mac.update(responder_hello);
    mac.finalize()
}

/// The keys and the tags of a connection between the ends that said these hellos. A hello has to have bytes that no
/// other hello of its end has, such as 32 at random: else a recorded connection can be sent once more.
pub fn keys_of(site_key: &[u8], initiator_hello: &[u8], responder_hello: &[u8]) -> SessionKeys
    ensures { result ≡ session_keys site_key.now initiator_hello.now responder_hello.now }
{
    SessionKeys {
        initiator_key: made_with(b"initiator key", site_key, initiator_hello, responder_hello),
        responder_key: made_with(b"responder key", site_key, initiator_hello, responder_hello),
        initiator_tag: made_with(b"initiator tag", site_key, initiator_hello, responder_hello),
        responder_tag: made_with(b"responder tag", site_key, initiator_hello, responder_hello),
    }
}
