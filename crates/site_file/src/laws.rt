//! What is true of site files and key files. The calls do nothing: what each says is its contract.

ghost use Rattle.site_file.specs.Laws.{RefusedSaysNone, SaysOne, RefusedHasNoKeys, KeysAreOne};

/// A text of which an error says why it is refused says no site, and a text says one site at most.
///
/// No code calls it: it is for readers.
pub fn a_text_says_one_site()
    ensures refused { RefusedSaysNone }
    ensures one { SaysOne }
{}

/// A text of which an error says why it is refused has no keys, and a text has one key or two, and no others.
///
/// No code calls it: it is for readers.
pub fn a_text_has_its_keys()
    ensures refused { RefusedHasNoKeys }
    ensures one { KeysAreOne }
{}
