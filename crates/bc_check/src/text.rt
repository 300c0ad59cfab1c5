//! What is said of a pair, as text.
ghost use Rattle.std.specs.Prelude.{◌≡◌, ◌++◌, codes, OnOk, IfOk, IfErr};
ghost use Rattle.std.specs.Fmt.{decimal};
ghost use Rattle.std.specs.String.{string_bytes};
ghost use Rattle.bc_replay.specs.Causes.{OfHeld};
ghost use Rattle.bc_check.specs.Calls.{BothKept, CountsFault, EndsAlone, EndsAtSuper, NoneFailed};
ghost use Rattle.bc_check.specs.Verdict.{IsCheckCause};
ghost use Rattle.bc_check.specs.Text.{Reports, counts_text, line_text, live_text, number_text, report_text, sound_text, use_text, used_text, verdict_text, words_of};

use crate::lines::BucketLine;
use crate::pair::{Report, examine};
use crate::verdict::{CheckError, Verdict};
use bc_disk::disk::Disk;
use bc_replay::Use;
use std::alloc::{AllocError, Global};

// A use, behind a space.
fn use_word(kind: Use) -> &'static str
    ensures { result.now ≡ use_text kind }
{
    match kind {
        Use::None => " none",
        Use::Super => " super",
        Use::Journal => " journal",
        Use::Priority => " priority",
        Use::Uuid => " uuid",
        Use::Node => " node",
        Use::Data => " data",
    }
}

// Words and a number.
fn push_number(text: &mut String, words: &str, number: u64) -> Result<(), AllocError>
    ensures { OnOk result (string_bytes text.new
        ≡ string_bytes text.old ++ number_text words.now number) }
{
    let digits = number.to_string(*text.allocator())?;
    text.push_str(words)?;
    text.push_str(digits.as_str())
}

// A bucket and its use.
fn push_use(text: &mut String, bucket: u32, kind: Use) -> Result<(), AllocError>
    ensures { OnOk result (string_bytes text.new ≡ string_bytes text.old ++ used_text bucket kind) }
{
    push_number(text, "bucket ", u64::from(bucket))?;
    text.push_str(use_word(kind))
}

// How many sectors have live data in a bucket.
fn push_live(text: &mut String, live: u64, dirty: u64) -> Result<(), AllocError>
    ensures { OnOk result (string_bytes text.new ≡ string_bytes text.old ++ live_text live dirty) }
{
    push_number(text, " live ", live)?;
    push_number(text, " dirty ", dirty)
}

// What a bucket's line says behind its use.
fn push_counts(text: &mut String, line: &BucketLine) -> Result<(), AllocError>
    ensures { OnOk result (string_bytes text.new ≡ string_bytes text.old ++ counts_text line.now) }
{
    push_number(text, " gen ", u64::from(line.generation))?;
    push_live(text, line.live, line.dirty)
}

// The line of a bucket.
fn push_line(text: &mut String, line: &BucketLine) -> Result<(), AllocError>
    ensures { OnOk result (string_bytes text.new ≡ string_bytes text.old ++ line_text line.now) }
{
    push_use(text, line.bucket, line.kind)?;
    push_counts(text, line)?;
    text.push_str("\n")
}

// How many sectors of a sound pair have live data.
fn push_sound(text: &mut String, dirty: u64, clean: u64) -> Result<(), AllocError>
    ensures { OnOk result (string_bytes text.new
        ≡ string_bytes text.old ++ sound_text dirty clean) }
{
    push_number(text, "check sound dirty ", dirty)?;
    push_number(text, " clean ", clean)
}

// The bucket of the journal in which another entry stands.
fn push_journal(text: &mut String, bucket: u32) -> Result<(), AllocError>
    ensures { OnOk result (string_bytes text.new
        ≡ string_bytes text.old ++ number_text (codes "check journal ") bucket) }
{
    push_number(text, "check journal ", u64::from(bucket))
}

// The words of a verdict.
fn push_words(text: &mut String, verdict: Verdict) -> Result<(), AllocError>
    ensures { OnOk result (string_bytes text.new ≡ string_bytes text.old ++ words_of verdict) }
{
    match verdict {
        Verdict::PassThrough => text.push_str("check pass-through"),
        Verdict::Sound { dirty, clean } => push_sound(text, dirty, clean),
        Verdict::Journal { bucket } => push_journal(text, bucket),
        Verdict::Age { sector } => push_number(text, "check age ", sector),
        Verdict::Agree { sector } => push_number(text, "check agree ", sector),
    }
}

// The line of a verdict.
fn push_verdict(text: &mut String, verdict: Verdict) -> Result<(), AllocError>
    ensures { OnOk result (string_bytes text.new ≡ string_bytes text.old ++ verdict_text verdict) }
{
    push_words(text, verdict)?;
    text.push_str("\n")
}

/// The lines of a report: one for each of its buckets, `bucket N USE gen G live L dirty D`, where a
/// use is `super`, `journal`, `priority`, `uuid`, `node` or `data`; and then `check pass-through`,
/// `check sound dirty N clean N`, `check journal B`, `check age S` or `check agree S`. Numbers are
/// decimal.
pub fn report_text(alloc: Global, report: &Report) -> Result<String, AllocError>
    ensures { IfOk result (λ text. string_bytes text
        ≡ report_text report.now.lines.items report.now.verdict) }
{
    let mut text = String::new(alloc);
    for line in report.lines.iter() {
        push_line(&mut text, line)?;
    }
    push_verdict(&mut text, report.verdict)?;
    Ok(text)
}

/// What is said of a pair, and the text that says it.
#[derive(Drop)]
pub struct ReportText {
    /// Whether it is sound.
    pub verdict: Verdict,
    /// The lines of the report.
    pub text: String,
}

/// Says by text whether the pair that two devices hold is sound, and what its buckets hold, if that
/// is asked for and it is. Nothing is written. The answers are those of `examine`.
pub fn tell_pair<C: Disk, B: Disk>(
    alloc: Global,
    cache: &mut C,
    backing: &mut B,
    list: bool,
) -> Result<ReportText, CheckError>
    ensures found { IfOk result (λ r. OfHeld (λ p. Reports list p r.verdict (string_bytes r.text))
        (C.facts cache.old) (B.facts backing.old)) }
    ensures refused { IfErr result (IsCheckCause (C.facts cache.old) (B.facts backing.old)) }
    ensures supers { IfErr result (EndsAtSuper (C.facts cache.old) (C.facts cache.new)
        (B.facts backing.old) (B.facts backing.new)) }
    ensures alone { IfOk result (λ r. EndsAlone (C.facts cache.old) (C.facts cache.new)
        (B.facts backing.old) (B.facts backing.new) r.verdict) }
    ensures kept { BothKept (C.facts cache.old) (C.facts cache.new) (B.facts backing.old)
        (B.facts backing.new) }
    ensures faults { IfErr result (λ e. CountsFault e (C.facts cache.old) (C.facts cache.new)
        (B.facts backing.old) (B.facts backing.new)) }
    ensures good { OnOk result (NoneFailed (C.facts cache.old) (C.facts cache.new)
        (B.facts backing.old) (B.facts backing.new)) }
{
    let report = examine(alloc, cache, backing, list)?;
    let text = report_text(alloc, &report)?;
    Ok(ReportText {
        verdict: report.verdict,
        text,
    })
}
