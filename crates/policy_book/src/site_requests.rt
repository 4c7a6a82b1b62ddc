// The requests of a site file.
ghost use Rattle.std.specs.Prelude.{◌≡◌, Some, None, true, All, IfOk, IsErrOf, IsUtf8, MatchResult};
ghost use Rattle.std.specs.List.{AllPass};
ghost use Rattle.site_types.specs.Lines.{IsFormed};
ghost use Rattle.policy_book.specs.SiteFile.{change_read, changes_site, requests_of, site_requests};
ghost use Rattle.policy_book.specs.Loading.{Reads};
ghost use Rattle.policy_book.specs.declared.fault.LoadFault.TheVariants as load;

use crate::LoadFault;
use crate::request_lines::Line;
use crate::site_file::site_lines;
use site_types::{ByClass, Request, WordFault};
use std::alloc::Global;

/// The requests of a site file, in their order: the zone, the units, the clients, and each policy, followed by its clients, its
/// selections and its schedules. Where the bytes are no site file it answers `NotASite`.
pub fn load(alloc: Global, bytes: &[u8]) -> Result<Vec<Request>, LoadFault>
    ensures requests { IfOk result (λ v. IsUtf8 bytes.now × (site_requests bytes.now ≡ Some v.items)) }
    ensures refused { IsErrOf result load.NotASite → IsUtf8 bytes.now → site_requests bytes.now ≡ None }
    ensures formed { IfOk result (λ v. All IsFormed v.items) }
    ensures changes { IfOk result (λ v. AllPass changes_site v.items) }
{
    let lines = site_lines(alloc, bytes)?;
    read_all(alloc, &lines)
}

// The requests of these lines, each of which has to be one.
fn read_all(alloc: Global, lines: &[Line]) -> Result<Vec<Request>, LoadFault>
    ensures requests { MatchResult result (λ v. requests_of lines.now ≡ Some v.items) (λ fault. fault ≡ load.NotASite → requests_of lines.now ≡ None) }
    ensures formed { IfOk result (λ v. All IsFormed v.items) }
    ensures changes { IfOk result (λ v. AllPass changes_site v.items) }
{
    let mut requests = Vec::new(alloc);
    for line in lines {
        requests.push(read_change(alloc, line)?)?;
    }
    Ok(requests)
}

fn read_change(alloc: Global, line: &Line) -> Result<Request, LoadFault>
    ensures request { Reads (change_read line.now) result }
    ensures formed { IfOk result IsFormed }
    ensures change { IfOk result (λ r. changes_site r ≡ true) }
{
    let request = match Request::read(alloc, line.as_slice()) {
        Ok(request) => request,
        Err(WordFault::Bad { .. }) => return Err(LoadFault::NotASite),
        Err(WordFault::NoMemory) => return Err(LoadFault::NoMemory),
    };
    if changes_site(&request) {
        Ok(request)
    } else {
        Err(LoadFault::NotASite)
    }
}

fn changes_site(request: &Request) -> bool
    ensures { result ≡ changes_site request.now }
{
    matches!(request.by_class(), ByClass::SiteChange(_))
}
