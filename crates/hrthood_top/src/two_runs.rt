ghost use Rattle.std.specs.Prelude.{◌≡◌, ℕ, List, Some};
ghost use Rattle.hood_io.specs.Shelves.{Told};
ghost use Rattle.hrthood_words.specs.declared.verbs.DesignVerb.TheVariants.{Arrange, Background, Generate, Scale};
ghost use Rattle.hrthood_words.specs.Words.{OnDesign, Replay, Verify};
ghost use Rattle.hrthood_top.specs.Ends.{Outside};
ghost use Rattle.hrthood_top.specs.ScaledRuns.{LeadsBack};
ghost use Rattle.hrthood_top.specs.TwoRuns.{IsDone, IsRightArrangedReplay, IsRightBackgroundReplay, IsRightReplay, IsVerifiedTrace};

/// What `replay` writes of a text that `generate` wrote is the trace of a run that the design allows, within its bounds.
///
/// The two runs are apart: of the first only its text comes to the second, as the file `a`. In the first, `x` and `y` are what stood
/// outside before and after it, and `t` is its shelf with the design in the file `d`; `u`, `v` and `s` are those of the second, whose
/// shelf has the arrivals in the file `r`. So the trace has no stop, and each release whose response time falls within the horizon
/// has its end within it.
pub fn generated_text_replays()
    ensures { (words others : List (List ℕ)) (d a r text written : List ℕ) (x y u v : Outside) (t s : Told)
        → IsDone words (OnDesign Generate d) x y t text → IsDone others (Replay a r) u v s written → s.files a ≡ Some text
        → IsRightReplay t s d r text written }
{}

/// What `replay` writes of a text that `background` wrote is the trace of a run that the design permits, within the bounds of its hard threads.
///
/// The two runs are apart, as those of `generated_text_replays`. The trace has no stop; all threads and objects do as they are written; hard
/// threads are released on time, and each release of one whose response time falls within the horizon has its end within it; each client
/// is released at 0 and at each instant at which it ends, and at no other.
pub fn background_text_replays()
    ensures { (words others : List (List ℕ)) (d a r text written : List ℕ) (x y u v : Outside) (t s : Told)
        → IsDone words (OnDesign Background d) x y t text → IsDone others (Replay a r) u v s written → s.files a ≡ Some text
        → IsRightBackgroundReplay t s d r text written }
{}

/// The trace that `verify` writes is accepted by `accepts`.
///
/// The two runs are apart: of the first only its trace comes to the second, as a file beside the same design and arrivals. In the first, `x`
/// and `y` are what stood outside before and after it, and `t` is its shelf with the design in the file `d` and the arrivals in `r`; what it
/// wrote is a text, a line and the trace. However the second run ends, it does not refuse: where it is done it has written `yes lines` with the
/// number of events that the first told. The trace must be within the limit of its files, 16,777,216 bytes, beyond which it is not read.
pub fn verified_trace_is_accepted()
    ensures { (words : List (List ℕ)) (d r written : List ℕ) (x y : Outside) (t : Told)
        → IsDone words (Verify d r) x y t written → IsVerifiedTrace t d r written }
{}

/// What `replay` writes of a text that `arrange` wrote is the trace of a run that the design allows, within its bounds by the order that was found.
///
/// The two runs are apart, as those of `generated_text_replays`. The trace has no stop, and each release whose response time by that order
/// falls within the horizon has its end within it.
pub fn arranged_text_replays()
    ensures { (words others : List (List ℕ)) (d a r text written : List ℕ) (x y u v : Outside) (t s : Told)
        → IsDone words (OnDesign Arrange d) x y t text → IsDone others (Replay a r) u v s written → s.files a ≡ Some text
        → IsRightArrangedReplay t s d r text written }
{}

/// What `scale` reports of a design leads back to `generate`.
///
/// The two runs are apart: of the first only the per mille comes to the second, whose file has any text of the design with all its `work` at so
/// many per mille and the greatest budgets, within the limit of its files. However the second run ends, up to the margin that was reported it
/// refuses only since the Ada text is too long. At one per mille more it is never done: where the first reported a value over its limit, its
/// refusal has this value, and where it reported a body or a thread that costs too much, its refusal is for one that does.
pub fn scaled_design_generates()
    ensures { (words : List (List ℕ)) (d written : List ℕ) (x y : Outside) (t : Told)
        → IsDone words (OnDesign Scale d) x y t written → LeadsBack t d written }
{}
