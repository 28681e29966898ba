ghost use Rattle.std.specs.Prelude.{◌≡◌, ◌++◌, [], ◌∷◌, ◌<◌, List, ℕ, length, IfOk, IfErr, IsNone, ⊤};
ghost use Rattle.base.specs.declared.fault.Fault.TheVariants.{BadRecord};
ghost use Rattle.wire.specs.Record.{NoMark};

use proto::Fault;

/// The first `count` bytes, and those after them.
pub fn take_bytes(bytes: &[u8], count: usize) -> Result<(&[u8], &[u8]), Fault>
    ensures ok { IfOk result (λ r. (length r.0.now ≡ count) × (bytes.now ≡ r.0.now ++ r.1.now)) }
    ensures err { IfErr result (λ e. (e ≡ BadRecord) × (length bytes.now < count)) }
{
    if bytes.len() < count {
        return Err(Fault::BadRecord);
    }
    let (front, rest) = bytes.split_at(count);
    Ok((front, rest))
}

/// The bytes after this mark.
pub fn take_mark(bytes: &[u8], mark: u8) -> Result<&[u8], Fault>
    ensures ok { IfOk result (λ r. bytes.now ≡ mark ∷ r.now) }
    ensures err { IfErr result (λ e. (e ≡ BadRecord) × NoMark mark bytes.now) }
{
    match bytes {
        [first, rest @ ..] if *first == mark => Ok(rest),
        _ => Err(Fault::BadRecord),
    }
}

/// The first byte, and the bytes after it.
pub fn take_first(bytes: &[u8]) -> Result<(u8, &[u8]), Fault>
    ensures ok { IfOk result (λ r. bytes.now ≡ r.0 ∷ r.1.now) }
    ensures err { IfErr result (λ e. (e ≡ BadRecord) × (bytes.now ≡ [])) }
{
    match bytes {
        [first, rest @ ..] => Ok((*first, rest)),
        [] => Err(Fault::BadRecord),
    }
}
