//! What a driver says doesn't depend on what it said before. The law is a function that does nothing: its contract is the law.
ghost use Rattle.std.specs.Prelude.{◌≡◌, ◌++◌, List};
ghost use Rattle.two_way_driver.specs.Calls.{DriverView, silent_view, start_fault, back_fault};
ghost use Rattle.two_way_driver.specs.Laws.{Call, after_call, after_calls};
ghost use Rattle.two_way_driver.specs.Words.{with_words, after_calls_anew, said_by_each, joined_words};
ghost use Rattle.two_way_driver.specs.declared.DriverOutput.{DriverOutput};

/// It makes no difference to a call what was said before, and whether that was forgotten: the same calls are refused, a call
/// says the same behind it, and leaves the same else. So what each call says to a caller who forgets before each, joined, is
/// what is said to one who never forgets.
pub fn said_call_by_call()
    ensures start { (words : List DriverOutput) (v : DriverView)
        → start_fault (with_words words v) ≡ start_fault v }
    ensures back { (words : List DriverOutput) (v : DriverView)
        → back_fault (with_words words v) ≡ back_fault v }
    ensures call { (words : List DriverOutput) (v : DriverView) (call : Call)
        → after_call (with_words words v) call ≡ with_words words (after_call v call) }
    ensures said { (v : DriverView) (calls : List Call)
        → (after_calls v calls).state.said ≡ v.state.said ++ joined_words (said_by_each v calls) }
    ensures kept { (v : DriverView) (calls : List Call)
        → silent_view (after_calls v calls) ≡ silent_view (after_calls_anew v calls) }
{}
