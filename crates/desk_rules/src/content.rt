// What a backup seals, which only its payload's bytes show.
ghost use Rattle.std.specs.Prelude.{◌≡◌, ◌≤◌, ◌+◌, ℕ, List, [], ◌∷◌, None, Ok, true, length, IfOk, is_some, nat_lt, codes, unwrap_or};
ghost use Rattle.std.specs.Result.{result_err};
ghost use Rattle.site_types.specs.declared.answer.Answer.TheVariants as answer;
ghost use Rattle.policy_book.specs.Book.{policy_name};
ghost use Rattle.policy_book.specs.Lists.{has};
ghost use Rattle.image_kinds.specs.Reading.{stream_in};
ghost use Rattle.image_kinds.specs.Streams.{spelled_stream};
ghost use Rattle.desk_model.specs.Backups.{Asked, backup_content, backup_refusals, image_asked, sealed_bytes, stream_break};
ghost use Rattle.desk_model.specs.Pieces.{piece_count, piece_limit};
ghost use Rattle.desk_model.specs.Refusals.{first_refusal};
ghost use Rattle.desk_model.specs.State.{State};
ghost use Rattle.desk_rules.specs.Contents.{IsShown, base_time, content_bytes, content_under, policy_in, policy_of};
ghost use Rattle.desk_rules.specs.Decisions.{IsStateOf, backup_body};
ghost use Rattle.desk_rules.specs.Refusing.{Passes};

use crate::backup_room::unit_of;
use crate::pieces::check_pieces;
use crate::refusal::Refusal;
use crate::{JobBody, NoMemory};
use desk_model::Site;
use image_catalogue::Catalogue;
use image_kinds::{Stream, StreamFault, decode_stream, encode_image, make_image};
use policy_book::Policy;
use site_types::{Answer, Base, Copied, Name, Unit};
use std::alloc::Global;

/// The bytes that a backup seals.
#[derive(Debug, Drop)]
pub enum Content<'a> {
    /// The payload as it came.
    Payload(&'a [u8]),
    /// The image that is made of the payload's stream.
    Image(Vec<u8>),
}

impl Content<'_> {
    pub fn bytes(&self) -> &[u8]
        ensures { result.now ≡ content_bytes self.now }
    {
        match self {
            Content::Payload(bytes) => bytes,
            Content::Image(bytes) => bytes,
        }
    }
}

/// What a backup seals that the rules allow, or why its payload is refused: under a policy of files it is no stream, or what is
/// sealed has more pieces than a copy may have, or there is no room for it on the unit. The unit's slots aren't looked at. The body is that of the decision, under a policy of the site.
pub fn seal_content<'a>(
    alloc: Global,
    site: &Site,
    images: &Catalogue,
    body: &JobBody,
    payload: &'a [u8],
) -> Result<Content<'a>, Answer>
    requires { has policy_name (policy_in body.now) site.now.book.policies ≡ true }
    ensures content { (s : State) (asked : Asked) (size moment : ℕ) → IsStateOf site.now images.now s → first_refusal (backup_refusals asked moment s) ≡ None → body.now ≡ backup_body asked size moment s → IsShown (backup_content asked payload.now moment s) result }
    ensures bytes { (s : State) (asked : Asked) (size moment : ℕ) → IsStateOf site.now images.now s → first_refusal (backup_refusals asked moment s) ≡ None → body.now ≡ backup_body asked size moment s → IfOk result (λ content. content_bytes content ≡ (image_asked asked payload.now moment s).bytes) }
    // An image of a stream has no more bytes than the stream.
    ensures short { IfOk result (λ content. length (content_bytes content) ≤ length payload.now) }
{
    match check_content(alloc, site, images, body.policy(), body.base(), payload) {
        Ok(content) => Ok(content),
        Err(Refusal::Answered(answer)) => Err(answer),
        Err(Refusal::NoMemory) => Err(Answer::OutOfMemory),
    }
}

fn check_content<'a>(
    alloc: Global,
    site: &Site,
    images: &Catalogue,
    name: &Name,
    base: Base,
    payload: &'a [u8],
) -> Result<Content<'a>, Refusal>
    requires { has policy_name name.now site.now.book.policies ≡ true }
    ensures passes { Passes (content_under (policy_of name.now site.now.book) base payload.now site.now images.now) result }
    ensures bytes { IfOk result (λ content. content_bytes content ≡ sealed_bytes (policy_of name.now site.now.book) (base_time base) payload.now) }
    ensures short { IfOk result (λ content. length (content_bytes content) ≤ length payload.now) }
{
    let Some(policy) = site.book.policy(name) else {
        unreachable!()
    };
    let content = made_content(alloc, policy, base, payload)?;
    let unit = unit_of(alloc, &site.book, policy)?;
    let size = content.bytes().len() as u64;
    check_copy(alloc, &unit, images.used(&unit.name), size)?;
    Ok(content)
}

fn made_content<'a>(
    alloc: Global,
    policy: &Policy,
    base: Base,
    payload: &'a [u8],
) -> Result<Content<'a>, Refusal>
    ensures passes { Passes ((is_some (stream_break policy.now payload.now), answer.BadStream (unwrap_or (stream_break policy.now payload.now) 0)) ∷ []) result }
    ensures bytes { IfOk result (λ content. content_bytes content ≡ sealed_bytes policy.now (base_time base) payload.now) }
    ensures short { IfOk result (λ content. length (content_bytes content) ≤ length payload.now) }
{
    if !policy.files() {
        return Ok(Content::Payload(payload));
    }
    let stream = read_stream(alloc, payload)?;
    let image = make_image(alloc, &stream, policy.selections(), base_time(base))?;
    Ok(Content::Image(encode_image(alloc, &image)?))
}

fn read_stream(alloc: Global, payload: &[u8]) -> Result<Stream<'_>, Refusal>
    ensures passes { Passes ((is_some (result_err (stream_in payload.now)), answer.BadStream (unwrap_or (result_err (stream_in payload.now)) 0)) ∷ []) result }
    ensures stream { IfOk result (λ stream. stream_in payload.now ≡ Ok stream) }
    ensures spelled { IfOk result (λ stream. payload.now ≡ spelled_stream stream) }
{
    match decode_stream(alloc, payload) {
        Ok(stream) => Ok(stream),
        Err(StreamFault::Bad { offset }) => Err(Refusal::Answered(Answer::BadStream { offset })),
        Err(StreamFault::NoMemory) => Err(Refusal::NoMemory),
    }
}

fn base_time(base: Base) -> Option<u64>
    ensures { result ≡ base_time base }
{
    match base {
        Base::None => None,
        Base::Time(time) => Some(time),
    }
}

// A copy of so many bytes may stand on the unit, on which so many are held.
fn check_copy(alloc: Global, unit: &Unit, held: u64, length: u64) -> Result<(), Refusal>
    ensures { Passes ((nat_lt piece_limit (piece_count unit.now.segment length), answer.TooMany (codes "pieces") (piece_count unit.now.segment length) piece_limit) ∷ (nat_lt unit.now.capacity (held + length), answer.UnitFull unit.now.name held length unit.now.capacity) ∷ []) result }
{
    check_pieces(alloc, unit, length)?;
    check_space(alloc, unit, held, length)
}

fn check_space(alloc: Global, unit: &Unit, held: u64, length: u64) -> Result<(), Refusal>
    ensures { Passes ((nat_lt unit.now.capacity (held + length), answer.UnitFull unit.now.name held length unit.now.capacity) ∷ []) result }
{
    if u128::from(held) + u128::from(length) > u128::from(unit.capacity) {
        return Err(Refusal::Answered(Answer::UnitFull {
            unit: unit.name.copy(alloc)?,
            used: held,
            length,
            capacity: unit.capacity,
        }));
    }
    Ok(())
}
