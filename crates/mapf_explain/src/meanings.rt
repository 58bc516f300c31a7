//! The words for each name of an error, a refusal or an answer.

/// What a word of a line may be, by what stands before it.
#[derive(Clone, Copy, Debug, PartialEq, Eq)]
pub enum Place {
    /// The first word of the line.
    Line,
    Refusal,
    Map,
    Scenario,
    PlanText,
    /// An error of a plan, or of the text in which it stands, or of events or requests.
    Played,
    Plan,
    Certificate,
    Input,
    Output,
    /// Which limit was reached.
    Limit,
    Bound,
    /// What a line of `follow`'s input is, which isn't answered by a reply.
    Request,
    /// Who holds an agent.
    Holder,
    /// The numbers of agents, any number of them.
    Agents,
    /// No word follows.
    End,
}

/// What a word means, with `#` for each number that follows, `@` for a cell after these, and what may come then.
#[derive(Clone, Copy, Debug)]
pub struct Meaning {
    pub words: &'static str,
    pub next: Place,
}

/// Returns what a word means at this place. None if no line has it there.
pub fn meaning_of(place: Place, word: &str) -> Option<Meaning> {
    match place {
        Place::Line => of_line(word),
        Place::Refusal => of_refusal(word),
        Place::Map => of_map(word),
        Place::Scenario => of_scenario(word),
        Place::PlanText => of_plan_text(word),
        Place::Played => of_played(word),
        Place::Plan => of_plan(word),
        Place::Certificate => of_certificate(word),
        Place::Input => of_input(word),
        Place::Output => of_output(word),
        Place::Limit => of_limit(word),
        Place::Bound => of_bound(word),
        Place::Request => of_request(word),
        Place::Holder => of_holder(word),
        Place::Agents | Place::End => None,
    }
}

fn last(words: &'static str) -> Option<Meaning> {
    then(words, Place::End)
}

fn then(words: &'static str, next: Place) -> Option<Meaning> {
    Some(Meaning { words, next })
}

fn of_line(word: &str) -> Option<Meaning> {
    match word {
        "F1" => then("the map can't be used", Place::Map),
        "F2" => then("the scenario can't be used", Place::Scenario),
        "F3" => then("the plan can't be played or followed", Place::Played),
        "F4" => then("a file can't be read, or is too long", Place::Input),
        "F5" => then("an output can't be written", Place::Output),
        "F6" => last("there isn't enough memory"),
        "refused" => then(
            "the texts don't show what the plan text says",
            Place::Refusal,
        ),
        "cost" => last(
            "the plan is valid, its sum of costs is # ticks, and no valid plan costs less",
        ),
        "optimal" => last(
            "the plan is valid, its sum of costs is # ticks, and no valid plan costs less",
        ),
        "within" => last(
            "no valid plan costs less than # ticks, and the plan is valid and costs # ticks",
        ),
        "bound" => last("no valid plan costs less than # ticks"),
        "impossible" => last("no plan is valid"),
        "limit" => then("the search ended without a plan", Place::Limit),
        _ => of_execution(word),
    }
}

// The lines of `play`, `dispatch` and `follow`.
fn of_execution(word: &str) -> Option<Meaning> {
    match word {
        "tick" => last("the rows below show where the agents are at tick #"),
        "end" => last("the makespan is # ticks"),
        "go" => last("agent # goes on, into cell @"),
        "hold" => then("agent # has to wait, and may ask again", Place::Holder),
        "done" => last("agent # is in its last cell, and stays there"),
        "cycle" => then(
            "the agents in full cycles, who wait for ever: ",
            Place::Agents,
        ),
        "error" => then(
            "the line isn't answered, and changes nothing",
            Place::Request,
        ),
        _ => None,
    }
}

fn of_refusal(word: &str) -> Option<Meaning> {
    match word {
        "C1" => then("the plan text has an error", Place::PlanText),
        "C2" => then("the certificate has an error", Place::Certificate),
        "C3" => last("the number of agents of the plan text or of the certificate isn't K"),
        "C4" => last(
            "the claim of the certificate doesn't fit the plan text, or that has a limit of version 1",
        ),
        "C5" => then("the plan isn't valid", Place::Plan),
        "C6" => last("line # of the certificate is a split that isn't allowed"),
        "C7" => last("line # of the certificate is an entry or a cell that the rules don't allow"),
        "C8" => last("the leaf at line # of the certificate doesn't show what it has to"),
        "C9" => last("the clash at line # of the certificate is none"),
        "C10" => last("line # of the certificate isn't allowed where it stands"),
        _ => None,
    }
}

fn of_map(word: &str) -> Option<Meaning> {
    match word {
        "M1" => last("line 1 isn't 'type octile'"),
        "M2" => last("line 2 isn't 'height' and digits"),
        "M3" => last("line 3 isn't 'width' and digits"),
        "M4" => last("the size in line # is out of range"),
        "M5" => last("line 4 isn't 'map'"),
        "M6" => last("row # hasn't as many characters as line 3 says; rows are counted from 0"),
        "M7" => last("the character in column # of row # is no terrain; both are counted from 0"),
        "M8" => last("the text ends after # rows, before the height that line 2 says"),
        "M9" => last("line # comes after the rows and isn't blank"),
        _ => None,
    }
}

fn of_scenario(word: &str) -> Option<Meaning> {
    match word {
        "S1" => last("it doesn't begin with 'version 1'"),
        "S2" => last("row # hasn't nine words; rows are counted from 0"),
        "S3" => last(
            "in row # field # isn't a number from 0 to 4294967295; rows are counted from 0, fields from 1",
        ),
        "S4" => last("the size in row # isn't that of the map; rows are counted from 0"),
        "S5" => last(
            "the start or the goal in row # is outside the map or blocked; rows are counted from 0",
        ),
        "S6" => last("field 9 of row # isn't a decimal number; rows are counted from 0"),
        "S7" => last("the text ends after # rows, and each agent needs one"),
        _ => None,
    }
}

fn of_plan_text(word: &str) -> Option<Meaning> {
    match word {
        "P1" => last("line # has another shape than it must have, or doesn't fit"),
        "P2" => last("the text ends where line # should begin, or before its end"),
        "P3" => last("a number in line # is out of range"),
        "P4" => last("something follows the line 'end'; it begins at line #"),
        _ => None,
    }
}

fn of_played(word: &str) -> Option<Meaning> {
    match word {
        "none" => last("the plan text holds no plan"),
        "count" => last("the number of agents of the plan text isn't K"),
        "E1" => last("line # of the events or requests has another shape than it must have"),
        "E2" => last("the events or requests end where line # should begin, or before its end"),
        "E3" => last("the agent in line # of the events is out of range"),
        "E4" => last("after the events something follows the line 'end'; it begins at line #"),
        _ => of_plan_text(word).or(of_plan(word)),
    }
}

fn of_plan(word: &str) -> Option<Meaning> {
    match word {
        "V1" => last("the path of agent # doesn't begin at the agent's start"),
        "V2" => last(
            "the step of agent # from tick # on is neither a wait nor a move to an adjacent free cell",
        ),
        "V3" => last("the path of agent # doesn't end at the agent's goal"),
        "V4" => last("vertex conflict: agents # and # are in one cell at tick #"),
        "V5" => last(
            "swapping conflict: agents # and # exchange their cells from tick # to the next",
        ),
        _ => None,
    }
}

fn of_certificate(word: &str) -> Option<Meaning> {
    match word {
        "K1" => last("line # has another shape than it must have, or is out of place"),
        "K2" => last("the text ends where line # should begin, or before its end"),
        "K3" => last("a number in line # is out of range"),
        "K4" => last("something follows the line 'end'; it begins at line #"),
        _ => None,
    }
}

fn of_input(word: &str) -> Option<Meaning> {
    match word {
        "map" => last("the map"),
        "scen" => last("the scenario"),
        "plan" => last("the plan text"),
        "cert" => last("the certificate"),
        "events" => last("the events or requests"),
        _ => None,
    }
}

fn of_output(word: &str) -> Option<Meaning> {
    match word {
        "plan" => last("the plan text"),
        "cert" => last("the certificate"),
        "out" => last("standard output"),
        _ => None,
    }
}

fn of_limit(word: &str) -> Option<Meaning> {
    if word == "ticks" {
        return then("a conflict is too late to be split", Place::Bound);
    }
    if is_number(word) {
        return then("it made all splits that it might", Place::Bound);
    }
    None
}

fn of_bound(word: &str) -> Option<Meaning> {
    match word {
        "bound" => last("no valid plan costs less than # ticks"),
        _ => None,
    }
}

fn of_request(word: &str) -> Option<Meaning> {
    match word {
        "E1" => last("line # of the input is no request"),
        "E3" => last("the agent in line # of the input is out of range"),
        _ => None,
    }
}

fn of_holder(word: &str) -> Option<Meaning> {
    match word {
        "by" => last("agent # has to leave the next cell first"),
        _ => None,
    }
}

/// Returns whether a word is a cell, as the program prints one: its column and its row.
pub fn is_cell(word: &str) -> bool {
    match word.split_once(',') {
        Some((column, row)) => is_number(column) && is_number(row),
        None => false,
    }
}

/// Returns whether a word is a number, as the program prints one.
pub fn is_number(word: &str) -> bool {
    let digits = word.as_bytes();
    let is_short = match digits.first() {
        Some(first) => *first != b'0' || digits.len() == 1,
        None => false,
    };
    is_short && digits.len() <= 20 && digits.iter().all(|digit| digit.is_ascii_digit())
}
