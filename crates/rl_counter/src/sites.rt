ghost use Rattle.std.specs.Prelude.{◌≡◌, ◌<◌, ◌≤◌, bytes_eq, length, IfOk, OnOk, OnErr, IsOk, IsSome, MatchResult};
ghost use Rattle.rl_ids.specs.Objects.{is_below};
ghost use Rattle.rl_objmodel.specs.Places.{at_text, with_at, placed_back, restored_at, IsRising, IsPlace, FindsPlace, is_before};
ghost use Rattle.rl_objmodel.specs.Steps.{passes, with_site, told_sites, sites_of, with_told_site};

use rl_ids::{List, NoMemory, OpSerial, SiteCode};
use std::alloc::Global;

// Whether a site comes before another.
fn is_before(one: &(SiteCode, OpSerial), site: &SiteCode) -> bool
    ensures { result ≡ is_before site.now one.now }
{
    one.0.cmp(site).is_lt()
}

// Whether it is the same site.
fn is_of(one: &(SiteCode, OpSerial), site: &SiteCode) -> bool
    ensures { result ≡ bytes_eq site.now one.now.0 }
{
    site.as_str() == one.0.as_str()
}

// Whether a serial is smaller than another.
fn is_below(one: &OpSerial, other: &OpSerial) -> bool
    ensures { result ≡ is_below one.now other.now }
{
    one.cmp(other).is_lt()
}

// How many sites come before this one; they are searched by halves.
fn place_of(sites: &[(SiteCode, OpSerial)], site: &SiteCode) -> usize
    ensures within { result ≤ length sites.now }
    ensures place { IsRising sites.now → IsPlace site.now sites.now result }
{
    sites.partition_point(|one| is_before(one, site))
}

// Where the site is, or would stand.
fn find(sites: &[(SiteCode, OpSerial)], site: &SiteCode) -> Result<usize, usize>
    ensures within { MatchResult result (λ at. at < length sites.now) (λ at. at ≤ length sites.now) }
    ensures place { IsRising sites.now → FindsPlace site.now sites.now result }
{
    let at = place_of(sites, site);
    if at < sites.len() && is_of(&sites[at], site) {
        Ok(at)
    } else {
        Err(at)
    }
}

/// The site test (RTO9): of these sites, which are in order, the serial's own has none, or a smaller one. It looks at
/// about log n of n sites, and takes no memory.
pub fn is_newer(sites: &[(SiteCode, OpSerial)], serial: &OpSerial) -> bool
    ensures { IsRising sites.now → result ≡ passes serial.now sites.now }
{
    match find(sites, &serial.site) {
        Ok(at) => is_below(&sites[at].1, serial),
        Err(_) => true,
    }
}

// Sets a site's serial.
fn put_at(
    sites: &mut List<(SiteCode, OpSerial)>,
    site: SiteCode,
    serial: OpSerial,
) -> Result<(), NoMemory>
    ensures ok { IsRising sites.old → OnOk result (sites.new ≡ with_at site serial sites.old) }
    ensures rising { IsRising sites.old → IsRising sites.new }
    ensures err { OnErr result (sites.new ≡ sites.old) }
    ensures spare { IsRising sites.old → IsSome (at_text site sites.old) → IsOk result }
{
    match find(sites.as_slice(), &site) {
        Ok(at) => {
            sites.set(at, (site, serial));
            Ok(())
        }
        Err(at) => sites.insert(at, (site, serial)),
    }
}

/// Sets the serial of its own site, among sites that are in order and stay so. `NoMemory` leaves them as before, and
/// comes for a site that has no serial yet alone.
pub fn put(sites: &mut List<(SiteCode, OpSerial)>, serial: OpSerial) -> Result<(), NoMemory>
    ensures ok { IsRising sites.old → OnOk result (sites.new ≡ with_site serial sites.old) }
    ensures rising { IsRising sites.old → IsRising sites.new }
    ensures err { OnErr result (sites.new ≡ sites.old) }
    ensures spare { IsRising sites.old → IsSome (at_text serial.site sites.old) → IsOk result }
{
    put_at(sites, serial.site, serial)
}

/// The serial that a site has among sites that are in order, or none. It looks at about log n of n sites, and takes no
/// memory.
pub fn serial_of(sites: &[(SiteCode, OpSerial)], site: &SiteCode) -> Option<OpSerial>
    ensures { IsRising sites.now → result ≡ at_text site.now sites.now }
{
    match find(sites, site) {
        Ok(at) => Some(sites[at].1),
        Err(_) => None,
    }
}

// Puts back what a site at a place had.
fn put_back_at(
    sites: &mut List<(SiteCode, OpSerial)>,
    at: usize,
    site: &SiteCode,
    before: Option<OpSerial>,
)
    requires { at < length sites.old }
    ensures { sites.new ≡ placed_back at site.now before sites.old }
{
    match before {
        Some(serial) => sites.set(at, (*site, serial)),
        None => {
            sites.remove(at);
        }
    }
}

/// Puts back what a site had: this serial, or none. The sites are in order and stay so. It takes no memory. Where the
/// site has no serial, nothing changes.
pub fn put_back(sites: &mut List<(SiteCode, OpSerial)>, site: &SiteCode, before: Option<OpSerial>)
    ensures back { IsRising sites.old → IsSome (at_text site.now sites.old) → sites.new ≡ restored_at site.now before sites.old }
    ensures rising { IsRising sites.old → IsRising sites.new }
{
    match find(sites.as_slice(), site) {
        Ok(at) => put_back_at(sites, at, site, before),
        Err(_) => {}
    }
}

// Sets a site's serial, where the site has no greater one.
fn tell(sites: &mut List<(SiteCode, OpSerial)>, one: &(SiteCode, OpSerial)) -> Result<(), NoMemory>
    ensures ok { IsRising sites.old → OnOk result (sites.new ≡ with_told_site one.now sites.old) }
    ensures rising { IsRising sites.old → IsRising sites.new }
{
    match find(sites.as_slice(), &one.0) {
        Ok(at) => {
            if is_below(&sites.as_slice()[at].1, &one.1) {
                sites.set(at, *one);
            }
            Ok(())
        }
        Err(at) => sites.insert(at, *one),
    }
}

/// Sites as they were told, put in order; of one site the greatest serial stays. `NoMemory` comes where there is no
/// memory.
pub fn told(
    alloc: Global,
    sites: &[(SiteCode, OpSerial)],
) -> Result<List<(SiteCode, OpSerial)>, NoMemory>
    ensures sites { IfOk result (λ made. made ≡ sites_of sites.now) }
    ensures rising { IfOk result (λ made. IsRising made) }
{
    let mut made = List::new(alloc);
    for one in sites {
        tell(&mut made, one)?;
    }
    Ok(made)
}
