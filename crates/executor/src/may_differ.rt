//! The pages in which a batch may change something.

ghost use Rattle.std.specs.Prelude.{All};
ghost use Rattle.items.specs.Map.{alive};
ghost use Rattle.item_steps.specs.Steps.{steps};
ghost use Rattle.pages.specs.Others.{AreSameBeside, AreWithin, Covers};
ghost use Rattle.states.specs.Followed.{moment_of};

use crate::base_state::Base;
use batches::Batch;
use pages::PageSet;
use sessions::Request;

/// Adds the pages that the steps of the requests can change.
fn add_requests(requests: &[Request], pages: &mut PageSet)
    ensures covers { All (λ r. All (Covers pages.new) (steps r.command)) requests.now }
    ensures within { AreWithin pages.old pages.new }
{
    for request in requests {
        pages.add_command(&request.command);
    }
}

/// The pages in which the batch may change something: where an item may be due, and where a request
/// can make an update. It looks at no item.
pub fn may_differ(base: &Base, batch: &Batch) -> PageSet
    ensures due { AreSameBeside result base.now.state.items (alive base.now.state.items (moment_of base.now.state batch.now)) }
    ensures covers { All (λ r. All (Covers result) (steps r.command)) batch.now.requests }
{
    let moment = batch.moment.max(base.state.moment());
    let mut pages = base.state.pages().due_pages(moment);
    add_requests(batch.requests.as_slice(), &mut pages);
    pages
}
