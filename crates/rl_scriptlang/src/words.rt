ghost use Rattle.std.specs.Prelude.{◌≡◌};
ghost use Rattle.rl_scriptlang.specs.Words.{cause_word};

use rl_runs::ScriptCause;

/// The word by which a cause is told.
pub fn cause_word(cause: ScriptCause) -> &'static str
    ensures { result.now ≡ cause_word cause }
{
    match cause {
        ScriptCause::Text => "text",
        ScriptCause::Word => "word",
        ScriptCause::Count => "count",
        ScriptCause::Name => "name",
        ScriptCause::Channel => "channel",
        ScriptCause::Number => "number",
        ScriptCause::Object => "object",
        ScriptCause::Key => "key",
        ScriptCause::Value => "value",
        ScriptCause::Order => "order",
        ScriptCause::Total => "total",
        ScriptCause::Race => "race",
    }
}
