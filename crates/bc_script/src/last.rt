//! The run that goes on behind a text. A run is printed only once the sector behind it is known,
//! since neighbours in which the same is seen are one run, whichever runs they were kept in.
ghost use Rattle.std.specs.Prelude.{◌≡◌, ◌⊎◌, ◌+◌, ◌<◌, ◌≤◌, ◌^◌, ◌++◌, List, true, length, replicate, option_to_list, All, OnOk, IfOk};
ghost use Rattle.bc_model.specs.Values.{all_values, patterns, values_in, IsRun};
ghost use Rattle.bc_script.specs.Runs.{is_joined, runs_text};
ghost use Rattle.bc_script.specs.declared.seen.Seen.{Seen};

use crate::print::push_seen;
use crate::seen::Seen;
use bc_model::run::Run;
use std::alloc::AllocError;

/// The run behind those that are printed: so many sectors in which this is seen, or none yet.
#[derive(Drop)]
pub(crate) struct Last {
    seen: Seen,
    count: u32,
}

impl Last {
    ghost use Rattle.bc_script.specs.Last.{Goes, IsLast, Prints};

    /// No sectors.
    pub(crate) fn none() -> Last
        ensures { result.count ≡ 0 }
    {
        Last {
            seen: Seen::Zero,
            count: 0,
        }
    }

    // So many sectors more, in which this is seen.
    fn push(&mut self, seen: &Seen, count: u32, text: &mut Vec<u8>) -> Result<(), AllocError>
        requires some { 1 ≤ count }
        requires one { (count ≤ 1) ⊎ (is_joined seen.now seen.now ≡ true) }
        requires last { IsLast self.old }
        requires room { self.old.count + count < 2 ^ 32 }
        ensures last { OnOk result (IsLast self.new) }
        ensures few { OnOk result (self.new.count ≤ self.old.count + count) }
        ensures prints { OnOk result ((xs : List Seen) → Prints xs self.old text.old.items
            → Prints (xs ++ replicate count seen.now) self.new text.new.items) }
    {
        if self.count == 0 {
            self.seen = *seen;
            self.count = count;
            return Ok(());
        }
        if self.seen.is_joined(seen) {
            self.count += count;
            return Ok(());
        }
        push_seen(text, &self.seen, self.count)?;
        text.push(b' ')?;
        self.seen = *seen;
        self.count = count;
        Ok(())
    }

    // The sectors of a run more, of which the first has this number, one by one.
    fn push_each(&mut self, first: u64, run: &Run, text: &mut Vec<u8>) -> Result<(), AllocError>
        requires run { IsRun run.now }
        requires range { first + length (values_in run.now) < 2 ^ 64 }
        requires last { IsLast self.old }
        requires room { self.old.count + length (values_in run.now) < 2 ^ 32 }
        ensures { OnOk result (Goes first (values_in run.now)
            self.old self.new text.old.items text.new.items) }
    {
        for place in 0..run.len() {
            let seen = Seen::new(first + place as u64, &run.get(place));
            self.push(&seen, 1, text)?;
        }
        Ok(())
    }

    // So many sectors more, of which the first has this number, with the patterns of this stamp.
    fn push_pattern(
        &mut self,
        first: u64,
        stamp: u64,
        count: u32,
        text: &mut Vec<u8>,
    ) -> Result<(), AllocError>
        requires some { 1 ≤ count }
        requires stamp { 1 ≤ stamp }
        requires last { IsLast self.old }
        requires room { self.old.count + count < 2 ^ 32 }
        ensures { OnOk result (Goes first (patterns stamp first count)
            self.old self.new text.old.items text.new.items) }
    {
        self.push(&Seen::Stamp(stamp), count, text)
    }

    // The same of a run at once, where the same is seen in all of its sectors.
    fn push_run(&mut self, first: u64, run: &Run, text: &mut Vec<u8>) -> Result<(), AllocError>
        requires run { IsRun run.now }
        requires range { first + length (values_in run.now) < 2 ^ 64 }
        requires last { IsLast self.old }
        requires room { self.old.count + length (values_in run.now) < 2 ^ 32 }
        ensures { OnOk result (Goes first (values_in run.now)
            self.old self.new text.old.items text.new.items) }
    {
        match run {
            Run::Pattern {
                stamp,
                first: own,
                count,
            } if *own == first && *count > 0 => self.push_pattern(first, *stamp, *count, text),
            Run::Zero { count } if *count > 0 => self.push(&Seen::Zero, *count, text),
            _ => self.push_each(first, run, text),
        }
    }

    /// The sectors of these runs more, of which the first has the number `first`; answers the
    /// number behind them.
    pub(crate) fn push_runs(
        &mut self,
        first: u64,
        runs: &[Run],
        text: &mut Vec<u8>,
    ) -> Result<u64, AllocError>
        requires runs { All IsRun runs.now }
        requires range { first + length (all_values runs.now) < 2 ^ 64 }
        requires last { IsLast self.old }
        requires room { self.old.count + length (all_values runs.now) < 2 ^ 32 }
        ensures next { IfOk result (λ next. next ≡ first + length (all_values runs.now)) }
        ensures goes { OnOk result (Goes first (all_values runs.now)
            self.old self.new text.old.items text.new.items) }
    {
        let mut next = first;
        for run in runs {
            self.push_run(next, run, text)?;
            next += run.len() as u64;
        }
        Ok(next)
    }

    /// The sectors of a run more, if there is one.
    pub(crate) fn push_option(
        &mut self,
        first: u64,
        run: &Option<Run>,
        text: &mut Vec<u8>,
    ) -> Result<(), AllocError>
        requires runs { All IsRun (option_to_list run.now) }
        requires range { first + length (all_values (option_to_list run.now)) < 2 ^ 64 }
        requires last { IsLast self.old }
        requires room { self.old.count + length (all_values (option_to_list run.now)) < 2 ^ 32 }
        ensures { OnOk result (Goes first (all_values (option_to_list run.now))
            self.old self.new text.old.items text.new.items) }
    {
        match run {
            None => Ok(()),
            Some(run) => self.push_run(first, run, text),
        }
    }

    /// No sectors more: the run is printed.
    pub(crate) fn end(&self, text: &mut Vec<u8>) -> Result<(), AllocError>
        requires { IsLast self.now }
        ensures { OnOk result ((xs : List Seen) → Prints xs self.now text.old.items
            → text.new.items ≡ runs_text xs) }
    {
        if self.count == 0 {
            return Ok(());
        }
        push_seen(text, &self.seen, self.count)
    }
}
