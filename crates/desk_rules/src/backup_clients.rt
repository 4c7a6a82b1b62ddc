// The refusals of a backup that come before its schedule is found, in their order.
ghost use Rattle.std.specs.Prelude.{◌≡◌, ◌&&◌, [], ◌∷◌, Some, IfOk, not, is_none, length, nat_le, codes};
ghost use Rattle.site_types.specs.declared.answer.Answer.TheVariants as answer;
ghost use Rattle.policy_book.specs.Lists.{has, itself, named};
ghost use Rattle.policy_book.specs.Book.{client_limit, policy_name};
ghost use Rattle.policy_book.specs.Changes.{pair_text};
ghost use Rattle.desk_model.specs.Backups.{client_refusals, image_limit, is_known, policy_asked, takes_all};
ghost use Rattle.desk_rules.specs.Asking.{asked_by};
ghost use Rattle.desk_rules.specs.Refusing.{Passes};
ghost use Rattle.desk_rules.specs.Seen.{seen};

use crate::NoMemory;
use crate::asked::BackupAsked;
use crate::refusal::Refusal;
use desk_model::Site;
use image_catalogue::Catalogue;
use policy_book::{Book, CLIENT_LIMIT, Policy, pair_text};
use site_types::{Answer, Name, Text};
use std::alloc::Global;

/// How many images there may be.
pub const IMAGE_LIMIT: u64 = 1_048_576;

// The policy, under which the client may be backed up.
pub(crate) fn check_client<'a>(
    alloc: Global,
    site: &'a Site,
    images: &Catalogue,
    asked: &BackupAsked<'_>,
) -> Result<&'a Policy, Refusal>
    ensures passes { Passes (client_refusals (asked_by asked.now) (policy_asked (asked_by asked.now) (seen site.now images.now)) (seen site.now images.now)) result }
    ensures policy { IfOk result (λ p. policy_asked (asked_by asked.now) (seen site.now images.now) ≡ Some p.now) }
{
    check_images(alloc, images)?;
    let policy = known_policy(alloc, &site.book, &asked.policy)?;
    check_known(alloc, &site.book, asked)?;
    check_clients(alloc, &site.book, asked)?;
    check_listed(alloc, policy, asked)?;
    Ok(policy)
}

fn check_images(alloc: Global, images: &Catalogue) -> Result<(), Refusal>
    ensures { Passes ((nat_le image_limit (length images.now), answer.TooMany (codes "images") (length images.now) image_limit) ∷ []) result }
{
    let count = images.count();
    if count >= IMAGE_LIMIT {
        return Err(Refusal::Answered(Answer::TooMany {
            kind: Text::new(alloc, b"images")?,
            count,
            limit: IMAGE_LIMIT,
        }));
    }
    Ok(())
}

pub(crate) fn known_policy<'a>(
    alloc: Global,
    book: &'a Book,
    name: &Name,
) -> Result<&'a Policy, Refusal>
    ensures passes { Passes ((is_none (named policy_name name.now book.now.policies), answer.Unknown name.now) ∷ []) result }
    ensures policy { IfOk result (λ p. named policy_name name.now book.now.policies ≡ Some p.now) }
{
    match book.policy(name) {
        Some(policy) => Ok(policy),
        None => Err(Refusal::Answered(Answer::Unknown {
            name: Text::new(alloc, name.bytes())?,
        })),
    }
}

/// Every client may be backed up under the policy adhoc.
pub fn takes_all(policy: &Name) -> bool
    ensures { result ≡ takes_all policy.now }
{
    policy.bytes() == b"adhoc".as_slice()
}

pub(crate) fn is_known(client: &Name, book: &Book) -> bool
    ensures { result ≡ is_known client.now book.now }
{
    book.client(client).is_some()
}

fn check_known(alloc: Global, book: &Book, asked: &BackupAsked<'_>) -> Result<(), Refusal>
    ensures { Passes ((not (takes_all asked.now.policy) && not (is_known asked.now.client.now book.now), answer.Unknown asked.now.client.now) ∷ []) result }
{
    if !takes_all(&asked.policy) && !is_known(asked.client, book) {
        return Err(Refusal::Answered(Answer::Unknown {
            name: Text::new(alloc, asked.client.bytes())?,
        }));
    }
    Ok(())
}

fn check_clients(alloc: Global, book: &Book, asked: &BackupAsked<'_>) -> Result<(), Refusal>
    ensures { Passes ((takes_all asked.now.policy && not (is_known asked.now.client.now book.now) && nat_le client_limit (length book.now.clients), answer.TooMany (codes "clients") (length book.now.clients) client_limit) ∷ []) result }
{
    let count = book.clients().len();
    if takes_all(&asked.policy) && !is_known(asked.client, book) && count >= CLIENT_LIMIT {
        return Err(Refusal::Answered(Answer::TooMany {
            kind: Text::new(alloc, b"clients")?,
            count: count as u64,
            limit: CLIENT_LIMIT as u64,
        }));
    }
    Ok(())
}

fn check_listed(alloc: Global, policy: &Policy, asked: &BackupAsked<'_>) -> Result<(), Refusal>
    ensures { Passes ((not (takes_all asked.now.policy) && not (has itself asked.now.client.now policy.now.clients), answer.Unknown (pair_text asked.now.policy asked.now.client.now)) ∷ []) result }
{
    if !takes_all(&asked.policy) && !policy.lists(asked.client) {
        return Err(Refusal::Answered(Answer::Unknown {
            name: pair_text(alloc, asked.policy.bytes(), asked.client.bytes())?,
        }));
    }
    Ok(())
}
