//! What the definitions come to: each law is the contract of a function.
ghost use Rattle.std.specs.Prelude.{◌≡◌, ◌≢◌, ◌⊎◌, ◌+◌, ◌-◌, ◌*◌, ◌<◌, ◌≤◌, ℕ, suc, ◌∷◌, ◌++◌, [], List, length, reverse};
ghost use Rattle.std.specs.List.{flat_map, AllByRecursion};
ghost use Rattle.bc_model.specs.Sector.{Image};
ghost use Rattle.bc_model.specs.Pattern.{zeros};
ghost use Rattle.bc_model.specs.History.{IsLegal};
ghost use Rattle.bc_model.specs.declared.history.Entry.{Entry};
ghost use Rattle.bc_script.specs.declared.line.Line.{Line};
ghost use Rattle.bc_script.specs.declared.answer.Answer.{Answer};
ghost use Rattle.bc_script.specs.declared.script.ScriptError.{ScriptError};
ghost use Rattle.bc_script.specs.Trace.{lines_of, ended, HasNoNewline, SpellAll, IsTrace, IsFirstRefused};
ghost use Rattle.bc_script.specs.Answer.{IsText};
ghost use Rattle.bc_script.specs.Served.{IsOf, ServesLine, Served, ServedFrom};
ghost use Rattle.bc_script.specs.Expected.{AllAnswered, answers_of};
ghost use Rattle.bc_script.specs.Generator.{drawn_line, generated, heights, region_of, worker_of, Touches};
ghost use Rattle.bc_script.specs.Example.{beside_lines, beside_answers, beside_history, undurable_history, phase_lines, phase_answers, phase_history, broken_history, refused_lines, refused_answers, refused_history, missing_history, ten_heights, ten_lines, example_lines, example_answers, example_history, unfinished_history};

/// The lines of a text, each with a newline behind it, are the text, or the text and the newline
/// that its last line lacks; and no line has a newline in it.
pub fn lines_are_the_text()
    ensures joined { (text : List ℕ) → (flat_map ended (lines_of text) ≡ text)
        ⊎ (flat_map ended (lines_of text) ≡ text ++ 10 ∷ []) }
    ensures apart { (text : List ℕ) → AllByRecursion HasNoNewline (lines_of text) }
{}

/// A text is read in one way: where its lines spell a trace none is refused, and the first that is
/// refused is one.
pub fn one_reading()
    ensures read { (text : List ℕ) (lines : List Line) (e : ScriptError)
        → SpellAll (lines_of text) lines → IsTrace lines → IsFirstRefused text e → ⊥ }
    ensures one { (texts : List (List ℕ)) (a b : List Line) → SpellAll texts a → SpellAll texts b → a ≡ b }
    ensures refused { (text : List ℕ) (e f : ScriptError)
        → IsFirstRefused text e → IsFirstRefused text f → e ≡ f }
{}

/// An answer has one text.
pub fn one_text()
    ensures { (answer : Answer) (a b : List ℕ) → IsText answer a → IsText answer b → a ≡ b }
{}

/// No lines are served by nothing, and a trace that is served stays so with one line more.
pub fn served_grows()
    ensures none { (size : ℕ) → Served size [] [] [] }
    ensures more { (size : ℕ) (lines : List Line) (answers : List Answer)
        (history own : List Entry) (line : Line) (answer : Answer)
        → Served size lines answers history → ServesLine size (suc (length lines)) line answer own
        → Served size (lines ++ line ∷ []) (answers ++ answer ∷ []) (history ++ own) }
{}

/// A write, a read that sees it and a flush are served by the entries of each in turn; without the
/// entry that the flush is done they aren't.
pub fn served_example()
    ensures meets { Served 64 example_lines example_answers example_history }
    ensures misses { Served 64 example_lines example_answers unfinished_history → ⊥ }
{}

/// Two workers of one phase are served beside each other, a forced write with its acknowledgement;
/// without that entry they aren't.
pub fn served_beside()
    ensures meets { Served 64 beside_lines beside_answers beside_history }
    ensures misses { Served 64 beside_lines beside_answers undurable_history → ⊥ }
{}

/// The requests of a phase are served behind those of the phases before, also where another worker
/// asked.
pub fn served_in_phases()
    ensures meets { Served 64 phase_lines phase_answers phase_history }
    ensures broken { Served 64 phase_lines phase_answers broken_history → ⊥ }
{}

/// A write whose second piece is refused has the entry of its first, and the device may have tried
/// the second; without the first entry it isn't served.
pub fn served_refused()
    ensures meets { Served 1024 refused_lines refused_answers refused_history }
    ensures misses { Served 1024 refused_lines refused_answers missing_history → ⊥ }
{}

/// A trace whose lines have their entries one behind the other is served, and a trace of one worker
/// is served in no other way.
pub fn one_worker()
    ensures meets { (size : ℕ) (lines : List Line) (answers : List Answer) (history : List Entry)
        → ServedFrom size 1 lines answers history → Served size lines answers history }
    ensures only { (size worker : ℕ) (lines : List Line) (answers : List Answer) (history : List Entry)
        → AllByRecursion (IsOf worker) lines
        → Served size lines answers history → ServedFrom size 1 lines answers history }
{}

/// Where nothing failed, a trace of one worker that is served with a legal history has one list of
/// answers: that of its lines and of what the sectors showed before it.
pub fn one_outcome()
    ensures { (size worker : ℕ) (opening : Image) (lines : List Line) (answers : List Answer) (history : List Entry)
        → AllByRecursion (IsOf worker) lines → Served size lines answers history → IsLegal opening (reverse history)
        → AllAnswered size lines answers → answers ≡ answers_of size lines opening }
{}

/// The example's answers are that list, over sectors of zeros.
pub fn expected_example()
    ensures answers { answers_of 64 example_lines (λ s. zeros) ≡ example_answers }
    ensures answered { AllAnswered 64 example_lines example_answers }
{}

/// Lines that are generated for two workers touch no sector in common, and a line touches only
/// sectors of its worker's region.
pub fn workers_are_apart()
    ensures inside { (workers size k x s : ℕ) → 64 ≤ region_of workers size
        → Touches (drawn_line workers size k x) s
        → ((worker_of workers k - 1) * region_of workers size ≤ s)
        × (s < (worker_of workers k - 1) * region_of workers size + region_of workers size) }
    ensures apart { (workers size k j x y s : ℕ) → 64 ≤ region_of workers size
        → worker_of workers k ≢ worker_of workers j
        → Touches (drawn_line workers size k x) s → Touches (drawn_line workers size j y) s → ⊥ }
{}

/// The numbers that are drawn from 1 on, without their lowest 16 bits, and the lines that they make
/// for one worker over 64 sectors.
pub fn generated_example()
    ensures numbers { heights 1 10 ≡ ten_heights }
    ensures lines { generated 1 1 64 10 ≡ ten_lines }
{}
