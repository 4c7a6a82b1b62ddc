// The words of a single request.
ghost use Rattle.std.specs.Prelude.{◌≡◌, true, Some, None, IfOk};
ghost use Rattle.site_types.specs.Requests.{IsReading, read_words};
ghost use Rattle.site_types.specs.Lines.{IsFormed};
ghost use Rattle.bp_cli.specs.Gather.{IsLimited};
ghost use Rattle.bp_cli.specs.Words.{is_moment, moment_of, at_moment, without_moment, timed_request, IsTimedReading};

use site_types::{LAST_MOMENT, Request, Text, WordFault, read_number};
use std::alloc::Global;

/// A request with the moment that its words name, if they name one, in seconds since 1970-01-01T00:00:00Z.
#[derive(Debug, Drop)]
pub struct TimedRequest {
    pub moment: Option<u64>,
    pub request: Request,
}

fn is_moment(word: &[u8]) -> bool
    ensures { result ≡ is_moment word.now }
{
    matches!(word, [b'@', ..])
}

fn moment_of(word: &[u8]) -> Option<u64>
    requires { is_moment word.now ≡ true }
    ensures moment { result ≡ moment_of word.now }
    ensures limit { IsLimited result }
{
    read_number(&word[1..], LAST_MOMENT)
}

fn read_at(alloc: Global, moment: u64, words: &[Text]) -> Result<TimedRequest, WordFault>
    ensures moment { IfOk result (λ s. s.moment ≡ Some moment) }
    ensures formed { IfOk result (λ s. IsFormed s.request) }
    ensures read { IsTimedReading result (at_moment (Some moment) (read_words words.now)) }
{
    match Request::read(alloc, words) {
        Ok(request) => Ok(TimedRequest {
            moment: Some(moment),
            request,
        }),
        Err(WordFault::Bad { index }) => Err(WordFault::Bad { index: index + 1 }),
        Err(WordFault::NoMemory) => Err(WordFault::NoMemory),
    }
}

fn read_now(alloc: Global, words: &[Text]) -> Result<TimedRequest, WordFault>
    ensures moment { IfOk result (λ s. s.moment ≡ None) }
    ensures formed { IfOk result (λ s. IsFormed s.request) }
    ensures read { IsTimedReading result (without_moment (read_words words.now)) }
{
    match Request::read(alloc, words) {
        Ok(request) => Ok(TimedRequest {
            moment: None,
            request,
        }),
        Err(fault) => Err(fault),
    }
}

/// What the words ask for.
pub fn read_timed_request(alloc: Global, words: &[Text]) -> Result<TimedRequest, WordFault>
    ensures read { IsTimedReading result (timed_request words.now) }
    ensures limit { IfOk result (λ s. IsLimited s.moment) }
    ensures formed { IfOk result (λ s. IsFormed s.request) }
{
    match words {
        [first, rest @ ..] if is_moment(first.bytes()) => match moment_of(first.bytes()) {
            Some(moment) => read_at(alloc, moment, rest),
            None => Err(WordFault::Bad { index: 0 }),
        },
        [_, ..] => read_now(alloc, words),
        [] => Err(WordFault::Bad { index: 0 }),
    }
}
