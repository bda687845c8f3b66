//! The texts that the tools print, without the ends of their lines.

ghost use Rattle.std.specs.Prelude.{◌≡◌, ◌++◌, IfOk, codes, decimal, string_bytes};
ghost use Rattle.hex.specs.Hex.{encode_lower};
ghost use Rattle.sha2.specs.Sha256.{sha256};
ghost use Rattle.jffs_text.specs.Causes.{cause_text};
ghost use Rattle.jffs_tools.specs.Refusals.{why_text};
ghost use Rattle.jffs_tools.specs.Texts.{number_text as text_of_number, next_text as text_of_next};
ghost use Rattle.jffs_tools.specs.Texts.{mounted_text as text_of_mounted};
ghost use Rattle.jffs_tools.specs.Texts.{life_text as text_of_life, record_text as text_of_record};
ghost use Rattle.jffs_tools.specs.Texts.{refused_text as text_of_refused, did_text as text_of_did};
ghost use Rattle.jffs_tools.specs.Texts.{copies_text as text_of_copies};
ghost use Rattle.jffs_tools.specs.Texts.{totals_text as text_of_totals, rest_text as text_of_rest};
ghost use Rattle.jffs_tools.specs.Texts.{answered_text as text_of_answered, ring_text};

use crate::did::{Answered, Did, Totals};
use crate::names::rule_name;
use jffs_log::{RecordRef, ScanWhy, sector_after};
use jffs_text::cause_name;
use jffs_tree::{Cause, Limits};
use sha2::{Digest, Sha256};
use std::alloc::{AllocError, Global};

/// The number that comes next, or `none`.
fn number_text(alloc: Global, number: Option<u32>) -> Result<String, AllocError>
    ensures { IfOk result (λ s. string_bytes s ≡ text_of_number number) }
{
    match number {
        Some(number) => format!(in alloc; "{number}"),
        None => format!(in alloc; "none"),
    }
}

/// `next VERSION INODE`, with `none` where no number is left. The error: allocation failed.
pub fn next_text(alloc: Global, limits: &Limits) -> Result<String, AllocError>
    ensures { IfOk result (λ s. string_bytes s ≡ text_of_next limits.now) }
{
    let version = number_text(alloc, limits.next_version)?;
    let inode = number_text(alloc, limits.next_inode)?;
    format!(in alloc; "next {version} {inode}")
}

/// `mounted clean` or `mounted unclean`.
pub fn mounted_text(clean: bool) -> &'static str
    ensures { result.now ≡ text_of_mounted clean }
{
    if clean {
        "mounted clean"
    } else {
        "mounted unclean"
    }
}

/// `mounted clean next VERSION INODE`, or `mounted unclean ..`. The error: allocation failed.
pub fn mounted_next_text(alloc: Global, clean: bool, limits: &Limits) -> Result<String, AllocError>
    ensures { IfOk result
        (λ s. string_bytes s ≡ text_of_mounted clean ++ (codes " " ++ text_of_next limits.now)) }
{
    let mounted = mounted_text(clean);
    let next = next_text(alloc, limits)?;
    format!(in alloc; "{mounted} {next}")
}

/// The SHA-256 digest of an image, in lower case hex. The error: allocation failed.
pub fn digest_text(alloc: Global, image: &[u8]) -> Result<String, AllocError>
    ensures { IfOk result (λ s. string_bytes s ≡ encode_lower (sha256 image.now)) }
{
    hex::encode(alloc, &Sha256::digest(image))
}

/// `refused WHY`, and of a bad record `refused BadRecord SECTOR PLACE REASON`. The error:
/// allocation failed.
pub fn scan_refused_text(alloc: Global, why: ScanWhy) -> Result<String, AllocError>
    ensures { IfOk result (λ s. string_bytes s ≡ text_of_refused (why_text why)) }
{
    let name = match why {
        ScanWhy::Geometry => "Geometry",
        ScanWhy::Device => "Device",
        ScanWhy::BadRecord { sector, place, why } => {
            return bad_record_text(alloc, sector, place, rule_name(why));
        }
        ScanWhy::NoErased => "NoErased",
        ScanWhy::Scattered => "Scattered",
        ScanWhy::BadOrder => "BadOrder",
        ScanWhy::BadTree => "BadTree",
        ScanWhy::Memory => "Memory",
    };
    format!(in alloc; "refused {name}")
}

fn bad_record_text(alloc: Global, sector: u32, place: u32, rule: &str) -> Result<String, AllocError>
    ensures { IfOk result
        (λ s. string_bytes s ≡ codes "refused BadRecord " ++ (decimal sector ++ (codes " "
        ++ (decimal place ++ (codes " " ++ rule.now))))) }
{
    format!(in alloc; "refused BadRecord {sector} {place} {rule}")
}

/// `sectors` and then the numbers of the `held` sectors that stand from `first` on, round a device
/// of `sectors` sectors. The error: allocation failed.
pub fn sectors_text(
    alloc: Global,
    first: u32,
    held: u32,
    sectors: u32,
) -> Result<String, AllocError>
    ensures { IfOk result (λ s. string_bytes s ≡ codes "sectors" ++ ring_text sectors held first) }
{
    let mut text = String::from_str(alloc, "sectors")?;
    let mut sector = first;
    for _ in 0..held {
        text.push_str(" ")?;
        text.push_str(format!(in alloc; "{sector}")?.as_str())?;
        sector = sector_after(sector, sectors);
    }
    Ok(text)
}

/// `record SECTOR PLACE LENGTH VERSION live`, or with `dead` at its end. The error: allocation
/// failed.
pub fn record_text(alloc: Global, entry: &RecordRef, live: bool) -> Result<String, AllocError>
    ensures { IfOk result (λ s. string_bytes s ≡ text_of_record entry.now live) }
{
    let sector = u32::from(entry.sector);
    let offset = u32::from(entry.offset);
    let length = u32::from(entry.length);
    let version = entry.version;
    let word = life_text(live);
    format!(in alloc; "record {sector} {offset} {length} {version} {word}")
}

/// `live` or `dead`.
fn life_text(live: bool) -> &'static str
    ensures { result.now ≡ text_of_life live }
{
    if live { "live" } else { "dead" }
}

/// What an operation did.
fn did_text(alloc: Global, did: Did) -> Result<String, AllocError>
    ensures { IfOk result (λ s. string_bytes s ≡ text_of_did did) }
{
    match did {
        Did::Appended { inode, version, at } => {
            format!(in alloc; "appended {inode} {version} at {at}")
        }
        Did::Copied { version, at } => format!(in alloc; "copied {version} at {at}"),
        Did::ClosedAt(at) => format!(in alloc; "closed at {at}"),
        Did::Closed => format!(in alloc; "closed"),
        Did::Cleaned { sector, copies } => {
            format!(in alloc; "erased sector {sector} copies {copies}")
        }
        Did::OneSector => format!(in alloc; "one sector"),
        Did::Erased(erased) => format!(in alloc; "erased {erased}"),
        Did::Refused(cause) => refused_text(alloc, cause),
    }
}

/// `refused CAUSE`.
fn refused_text(alloc: Global, cause: Cause) -> Result<String, AllocError>
    ensures { IfOk result (λ s. string_bytes s ≡ text_of_refused (cause_text cause)) }
{
    let name = cause_name(cause);
    format!(in alloc; "refused {name}")
}

/// ` after N copies`, and nothing where there was none.
fn copies_text(alloc: Global, copies: u64) -> Result<String, AllocError>
    ensures { IfOk result (λ s. string_bytes s ≡ text_of_copies copies) }
{
    if copies == 0 {
        return format!(in alloc; "");
    }
    format!(in alloc; " after {copies} copies")
}

/// ` ; erased N erases N weight N next V I`.
fn totals_text(alloc: Global, totals: &Totals) -> Result<String, AllocError>
    ensures { IfOk result (λ s. string_bytes s ≡ text_of_totals totals.now) }
{
    let erased = totals.erased;
    let erases = totals.erases;
    let weight = totals.weight;
    let next = next_text(alloc, &totals.limits)?;
    format!(in alloc; " ; erased {erased} erases {erases} weight {weight} {next}")
}

/// The copies and the totals; nothing of a core that failed.
fn rest_text(alloc: Global, copies: u64, totals: &Option<Totals>) -> Result<String, AllocError>
    ensures { IfOk result (λ s. string_bytes s ≡ text_of_rest copies totals.now) }
{
    match totals {
        None => format!(in alloc; ""),
        Some(totals) => {
            let copies = copies_text(alloc, copies)?;
            let totals = totals_text(alloc, totals)?;
            format!(in alloc; "{copies}{totals}")
        }
    }
}

/// The line that answers an operation on a core, without its end: what was done, and unless the
/// core failed ` after N copies` where there were any, and ` ; erased N erases N weight N next V
/// I`. The error: allocation failed.
pub fn answered_text(alloc: Global, answered: &Answered) -> Result<String, AllocError>
    ensures { IfOk result (λ s. string_bytes s ≡ text_of_answered answered.now) }
{
    let did = did_text(alloc, answered.did)?;
    let rest = rest_text(alloc, answered.copies, &answered.totals)?;
    format!(in alloc; "{did}{rest}")
}
