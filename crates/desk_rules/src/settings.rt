// Changes of the site.
ghost use Rattle.std.specs.Prelude.{◌≡◌, [], map, true, IfOk, None, option_map};
ghost use Rattle.std.specs.Option.{option_copied};
ghost use Rattle.site_types.specs.Lines.{IsFormed};
ghost use Rattle.site_types.specs.declared.answer.Answer.TheVariants as answer;
ghost use Rattle.desk_model.specs.declared.site.Site.{Site as SiteValue};
ghost use Rattle.policy_book.specs.Requests.{refusals_of};
ghost use Rattle.desk_model.specs.Refusals.{first_refusal};
ghost use Rattle.desk_model.specs.Settings.{is_setting, refusal_answer, removal_of, setting_refusals, use_refusals, used_by};
ghost use Rattle.desk_rules.specs.Decisions.{DecidesAs, SetsSite};
ghost use Rattle.desk_rules.specs.Refusing.{Passes};
ghost use Rattle.desk_rules.specs.Removals.{removal_seen};
ghost use Rattle.desk_rules.specs.Seen.{seen};
ghost use Rattle.desk_rules.specs.SiteChanges.{IsSiteChange};

use crate::refusal::{Refusal, refused};
use crate::zone::zone_set;
use crate::{Change, Decision, NoMemory, SiteChange};
use desk_model::Site;
use image_catalogue::Catalogue;
use site_types::{Answer, ImageRecord, Name, Request, Text};
use std::alloc::Global;

pub(crate) fn decide_setting<'a>(
    alloc: Global,
    site: &Site,
    images: &Catalogue,
    request: &'a Request,
) -> Result<Decision<'a>, NoMemory>
    requires setting { is_setting request.now ≡ true }
    requires formed { IsFormed request.now }
    ensures { IfOk result (DecidesAs (first_refusal (setting_refusals request.now (seen site.now images.now))) (answer.Done []) (SetsSite site.now request.now)) }
{
    match stage(alloc, site, images, request) {
        Ok(change) => Ok(Decision {
            answer: Answer::Done {
                body: Text::from_vec(Vec::new(alloc)),
            },
            change: Change::Settings { change },
        }),
        Err(refusal) => refused(refusal),
    }
}

// The change, where nothing refuses it.
fn stage<'a>(
    alloc: Global,
    site: &Site,
    images: &Catalogue,
    request: &'a Request,
) -> Result<SiteChange<'a>, Refusal>
    requires setting { is_setting request.now ≡ true }
    requires formed { IsFormed request.now }
    ensures passes { Passes (setting_refusals request.now (seen site.now images.now)) result }
    ensures change { IfOk result (IsSiteChange site.now request.now) }
{
    let change = stage_change(alloc, site, request)?;
    check_unused(alloc, images, request)?;
    Ok(change)
}

// The change, where the book doesn't refuse it.
fn stage_change<'a>(
    alloc: Global,
    site: &Site,
    request: &'a Request,
) -> Result<SiteChange<'a>, Refusal>
    requires setting { is_setting request.now ≡ true }
    requires formed { IsFormed request.now }
    ensures passes { Passes (map (λ r. (r.0, refusal_answer r.1)) (refusals_of request.now site.now.book)) result }
    ensures change { IfOk result (IsSiteChange site.now request.now) }
{
    match zone_set(alloc, request)? {
        Some(zone) => Ok(SiteChange::Zone(zone)),
        None => Ok(SiteChange::Book(site.book.check(alloc, request)?)),
    }
}

// What a request takes out of the site for which images may have been made.
#[derive(Clone, Copy, Debug)]
enum Removal<'a> {
    Client(&'a Name),
    Policy(&'a Name),
}

fn removal_of(request: &Request) -> Option<Removal<'_>>
    ensures { option_map removal_seen result ≡ removal_of request.now }
{
    match request {
        Request::ClientRemove { name } => Some(Removal::Client(name)),
        Request::PolicyRemove { policy } => Some(Removal::Policy(policy)),
        _ => None,
    }
}

// No image was made for what the request removes.
fn check_unused(alloc: Global, images: &Catalogue, request: &Request) -> Result<(), Refusal>
    ensures { (site : SiteValue) → Passes (use_refusals request.now (seen site images.now)) result }
{
    match removal_of(request) {
        Some(Removal::Client(name)) => check_use(alloc, name, images.first_of_client(name)),
        Some(Removal::Policy(name)) => check_use(alloc, name, images.first_under(name)),
        None => Ok(()),
    }
}

// No image uses the name.
fn check_use(alloc: Global, name: &Name, image: Option<&ImageRecord>) -> Result<(), Refusal>
    ensures { Passes (used_by name.now (option_copied image.entry) None) result }
{
    match image {
        Some(image) => Err(Refusal::Answered(Answer::InUse {
            name: Text::new(alloc, name.bytes())?,
            user: image.id.text(alloc)?,
        })),
        None => Ok(()),
    }
}
