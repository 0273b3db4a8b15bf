// Lines into tokens.
ghost use Rattle.std.specs.Prelude.{◌≡◌, ◌<◌, ◌≢◌, ◌∷◌, [], length, MatchOption};
ghost use Rattle.std.specs.List.{slice_split, after_first};
ghost use Rattle.rl_model.specs.Script.{is_space};
ghost use Rattle.rl_scriptlang.specs.Grammar.{tokens_after, text_after};
ghost use Rattle.rl_scriptlang.specs.Takes.{TakesToken, TakesTexts};

// The first token, and what follows the space after it.
#[derive(Clone, Copy)]
pub struct Front<'a> {
    pub token: &'a str,
    pub rest: Option<&'a str>,
}

// Four tokens.
#[derive(Clone, Copy)]
pub struct Four<'a> {
    pub first: &'a str,
    pub second: &'a str,
    pub third: &'a str,
    pub fourth: &'a str,
}

// Two tokens, and what follows the space after them.
#[derive(Clone, Copy)]
pub struct Told<'a> {
    pub first: &'a str,
    pub second: &'a str,
    pub text: &'a str,
}

// Cuts a line at its first space.
pub fn cut(line: &str) -> Front<'_>
    ensures tokens { slice_split is_space line.now ≡ result.token.now ∷ tokens_after result.rest }
    ensures text { text_after result.rest ≡ after_first is_space line.now }
{
    match line.split_once(' ') {
        Some((token, rest)) => Front {
            token,
            rest: Some(rest),
        },
        None => Front {
            token: line,
            rest: None,
        },
    }
}

// The next token, if there is one.
pub fn take_token(rest: Option<&str>) -> Option<Front<'_>>
    ensures { TakesToken rest.entry result }
{
    match rest {
        Some(line) => Some(cut(line)),
        None => None,
    }
}

// The token, where there is one alone.
pub fn only_one(rest: Option<&str>) -> Option<&str>
    ensures { MatchOption result (length (tokens_after rest.entry) ≢ 1) (λ one. tokens_after rest.entry ≡ one.now ∷ []) }
{
    let Some(front) = take_token(rest) else {
        return None;
    };
    match take_token(front.rest) {
        None => Some(front.token),
        Some(_) => None,
    }
}

// The tokens, where there are two.
pub fn only_two(rest: Option<&str>) -> Option<(&str, &str)>
    ensures { MatchOption result (length (tokens_after rest.entry) ≢ 2) (λ two. tokens_after rest.entry ≡ two.0.now ∷ two.1.now ∷ []) }
{
    let Some(front) = take_token(rest) else {
        return None;
    };
    match only_one(front.rest) {
        Some(second) => Some((front.token, second)),
        None => None,
    }
}

// The tokens, where there are four.
pub fn only_four(rest: Option<&str>) -> Option<Four<'_>>
    ensures { MatchOption result (length (tokens_after rest.entry) ≢ 4) (λ four. tokens_after rest.entry ≡ four.first.now ∷ four.second.now ∷ four.third.now ∷ four.fourth.now ∷ []) }
{
    let Some(front) = take_token(rest) else {
        return None;
    };
    let Some(next) = take_token(front.rest) else {
        return None;
    };
    match only_two(next.rest) {
        Some((third, fourth)) => Some(Four {
            first: front.token,
            second: next.token,
            third,
            fourth,
        }),
        None => None,
    }
}

// Two tokens and the text behind them, where there are three tokens at least.
pub fn two_and_text(rest: Option<&str>) -> Option<Told<'_>>
    ensures { TakesTexts rest.entry result }
{
    let Some(front) = take_token(rest) else {
        return None;
    };
    let Some(next) = take_token(front.rest) else {
        return None;
    };
    match next.rest {
        Some(text) => Some(Told {
            first: front.token,
            second: next.token,
            text,
        }),
        None => None,
    }
}
