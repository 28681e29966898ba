//! What follows from a state's form.

ghost use Rattle.std.specs.Prelude.{◌≡◌, length};
ghost use Rattle.std.specs.FinMap as map;
ghost use Rattle.items.specs.Map.{Items};
ghost use Rattle.states.specs.Followed.{form_over};
ghost use Rattle.pages.specs.Form.{root_by, fits_form, FitForm, layout_of};

use pages::{Layout, Snapshot};
use token::{Form, OLD_BLOCK_BYTES};

/// How many items there are at most over which a batch makes a state whose pages are digested as texts.
pub const FEW_ITEMS: u64 = 1024;

/// The form of a state that a batch makes over so many items, what is due having been dropped.
pub fn form_over(items: u64) -> Form
    ensures { (m : Items) → length (map.entries m) ≡ items → result ≡ form_over m }
{
    if items <= FEW_ITEMS {
        Form::Current
    } else {
        Form::Tree
    }
}

/// How the items of a state of this form are kept.
pub fn layout_of(form: Form) -> Layout
    ensures { result ≡ layout_of form }
{
    match form {
        Form::Old | Form::Current => Layout::Sorted,
        Form::Tree => Layout::Tree,
    }
}

/// The root over the digests of the pages of this form: 32 bytes. Of the old form it is made of all entries;
/// else it was made when the pages were sealed. It takes no memory.
pub fn root_of_form(form: Form, pages: &Snapshot) -> [u8; 32]
    requires laid { pages.now.layout ≡ layout_of form }
    requires fit { FitForm form pages.now.items }
    ensures { result ≡ root_by form pages.now.items }
{
    match form {
        Form::Old => pages.old_root(),
        Form::Current => pages.root(),
        Form::Tree => pages.root(),
    }
}

/// Whether a state of this form may have these items. Of the old form it looks at every item.
pub fn fits_form(form: Form, pages: &Snapshot) -> bool
    requires { pages.now.layout ≡ layout_of form }
    ensures { result ≡ fits_form form pages.now.items }
{
    match form {
        Form::Old => pages.has_old_texts() && pages.has_data_within(OLD_BLOCK_BYTES),
        Form::Current | Form::Tree => true,
    }
}
