ghost use Rattle.std.specs.Prelude.{◌≡◌, ◌+◌, ◌≤◌, length, take, drop, Ok};
ghost use Rattle.limits.specs.Refusals.{answered};
ghost use Rattle.records.specs.Reading.{ReadsExactly, head_at, record_at, unless_short};
ghost use Rattle.records.specs.Answers.{HeadWithin, PartOf, read_of};

use crate::mark::Mark;
use crate::record::{Head, Numbers, Record};
use kinds::kind::{Written, width_of};
use limits::refusal::Refusal;

// The first N bytes that a sheet has from a place on. Refused with 11 where it has fewer there; past its end it has none.
fn front<const N: usize>(sheet: &[u8], at: usize) -> Result<&[u8; N], Refusal>
    ensures { answered (λ bytes. bytes.now) result ≡ unless_short at N (drop at sheet.now) (Ok (take N (drop at sheet.now))) }
{
    let rest = &sheet[at.min(sheet.len())..];
    rest.first_chunk().ok_or(Refusal::RecordEnds { place: at })
}

// The N bytes of a record's head from an offset on.
fn part<const N: usize>(head: &[u8], offset: usize) -> [u8; N]
    requires { offset + N ≤ length head.now }
    ensures { result ≡ take N (drop offset head.now) }
{
    *head[offset..].first_chunk().unwrap()
}

// The mark and the numbers of the record at a place.
pub fn read_head(sheet: &[u8], at: usize) -> Result<Head, Refusal>
    ensures value { answered (λ h. h) result ≡ head_at sheet.now at }
    ensures within { HeadWithin at sheet.now result }
{
    let bytes = front::<2>(sheet, at)?;
    let mark = Mark::try_from(*bytes).map_err(|_| Refusal::MarkImpossible { place: at })?;
    match mark {
        Mark::Closing => {
            let head = front::<4>(sheet, at)?;
            Ok(Head::ClosingHead {
                count: u16::from_be_bytes(part(head, 2)),
            })
        }
        Mark::Entry(children) => {
            let head = front::<16>(sheet, at)?;
            let numbers = Numbers {
                children,
                weight: u32::from_be_bytes(part(head, 2)),
                tag: u32::from_be_bytes(part(head, 6)),
                left: u16::from_be_bytes(part(head, 10)),
                right: u16::from_be_bytes(part(head, 12)),
            };
            Ok(Head::EntryHead {
                numbers,
                length: u16::from_be_bytes(part(head, 14)),
            })
        }
    }
}

// The record at a place of a sheet of the kind S, and the place after it.
// It is refused with 11 where the bytes end in the record, and with 12 for a mark that no record has; nothing else is checked.
pub fn read_record<'a, S: Written>(
    sheet: &'a [u8],
    at: usize,
) -> Result<(Record<'a>, usize), Refusal>
    ensures value { answered read_of result ≡ record_at S.Written.codec.width sheet.now at }
    ensures part { PartOf sheet.entry at result }
    ensures exactly { ReadsExactly S.Written.codec.width sheet.now at }
{
    match read_head(sheet, at)? {
        Head::ClosingHead { count } => Ok((Record::Closing { count }, at + 4)),
        Head::EntryHead { numbers, length } => {
            let from = at + 16;
            let next = from + usize::from(length) * width_of::<S>();
            // Not by `get`: that a part is the caller's own sheet from a place on is known of an index alone.
            if sheet.len() < next {
                return Err(Refusal::RecordEnds { place: at });
            }
            let record = Record::Entry {
                numbers,
                length,
                symbols: &sheet[from..next],
            };
            Ok((record, next))
        }
    }
}
