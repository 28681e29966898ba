//! What sessions are told of their server.

use grammar::Conditions;

/// Nothing was counted, and there is room.
pub fn plain() -> Conditions {
    Conditions::NONE
}
