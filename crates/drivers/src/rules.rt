// The table of tags (document 01, "A constant table holds each tag's length rule"): which records have a tag, how often it stands there, and how long its content is.
ghost use Rattle.std.specs.Prelude.{◌≡◌, ◌^◌, ◌≤◌, eqb, position};
ghost use Rattle.drivers.specs.Rules.{has_tag, is_many, is_maybe, rule_at, index_of, rule_length};

// A form of record.
#[derive(Clone, Copy, PartialEq)]
pub(crate) enum Form {
    Job,
    Answer,
}

pub(crate) const JOB: Form = Form::Job;

pub(crate) const ANSWER: Form = Form::Answer;

// How often a tag stands in a record: exactly once, at least once, at most once.
#[derive(Clone, Copy, PartialEq)]
pub(crate) enum Often {
    Once,
    Many,
    Maybe,
}

// A tag's rule: the form of record that has it, how long its content is, base + factor × n ^ power bytes, and how often it stands.
// The numbers are narrow: a rule is passed by value.
#[derive(Clone, Copy)]
pub(crate) struct Rule {
    pub(crate) tag: u8,
    pub(crate) form: Option<Form>,
    pub(crate) base: u8,
    pub(crate) factor: u8,
    pub(crate) power: u8,
    pub(crate) often: Often,
}

// The tags: bytes of a record, and so numbers.
pub(crate) const N_TAG: u8 = 0x01;

pub(crate) const BANDS_TAG: u8 = 0x02;

pub(crate) const LIMITS_TAG: u8 = 0x03;

pub(crate) const ROW_TAG: u8 = 0x04;

pub(crate) const POINT_TAG: u8 = 0x05;

pub(crate) const CURSORS_TAG: u8 = 0x06;

pub(crate) const KAPPA_TAG: u8 = 0x07;

pub(crate) const MATRIX_TAG: u8 = 0x08;

pub(crate) const SETTINGS_TAG: u8 = 0x09;

pub(crate) const OUTCOME_TAG: u8 = 0x20;

pub(crate) const STEPS_TAG: u8 = 0x21;

pub(crate) const FOUND_TAG: u8 = 0x22;

impl Rule {
    // Whether its tag may stand more than once, and whether it may be missing.
    pub(crate) fn repeats(self) -> bool
        ensures { result ≡ is_many self.often }
    {
        self.often == Often::Many
    }

    pub(crate) fn is_optional(self) -> bool
        ensures { result ≡ is_maybe self.often }
    {
        self.often == Often::Maybe
    }
}

// What most rules have, by form; and the rule of what is no tag of the table, which no form has.
const OF_JOB: Rule = Rule {
    tag: 0,
    form: Some(Form::Job),
    base: 0,
    factor: 0,
    power: 0,
    often: Often::Once,
};

const OF_ANSWER: Rule = Rule {
    form: Some(Form::Answer),
    ..OF_JOB
};

const NO_RULE: Rule = Rule {
    form: None,
    ..OF_JOB
};

// Of n numbers.
const NUMBERS: Rule = Rule {
    factor: 8,
    power: 1,
    ..OF_JOB
};

// Document 01's table. A static and no constant, which would be made anew at each use: a walk over short fields takes twice the time with it.
static RULES: [Rule; TAGS] = [
    Rule {
        tag: N_TAG,
        base: 2,
        ..OF_JOB
    },
    Rule {
        tag: BANDS_TAG,
        base: 4,
        ..OF_JOB
    },
    Rule {
        tag: LIMITS_TAG,
        base: 24,
        ..OF_JOB
    },
    Rule {
        tag: ROW_TAG,
        often: Often::Many,
        ..NUMBERS
    },
    Rule {
        tag: POINT_TAG,
        ..NUMBERS
    },
    Rule {
        tag: CURSORS_TAG,
        base: 6,
        ..OF_JOB
    },
    Rule {
        tag: KAPPA_TAG,
        base: 8,
        ..OF_JOB
    },
    Rule {
        tag: MATRIX_TAG,
        power: 2,
        ..NUMBERS
    },
    Rule {
        tag: SETTINGS_TAG,
        base: 10,
        ..OF_JOB
    },
    Rule {
        tag: OUTCOME_TAG,
        base: 1,
        ..OF_ANSWER
    },
    Rule {
        tag: STEPS_TAG,
        base: 2,
        ..OF_ANSWER
    },
    Rule {
        tag: FOUND_TAG,
        factor: 8,
        power: 1,
        often: Often::Maybe,
        ..OF_ANSWER
    },
];

// Its rows by name, which are also the places of their tags, and how many there are. They index arrays, so they are numbers: an enum would be turned into one at each use.
// There is none for 3, the place of the rows, which are known by their tag.
pub(crate) const N: usize = 0;

pub(crate) const BANDS: usize = 1;

pub(crate) const LIMITS: usize = 2;

pub(crate) const POINT: usize = 4;

pub(crate) const CURSORS: usize = 5;

pub(crate) const KAPPA: usize = 6;

pub(crate) const MATRIX: usize = 7;

pub(crate) const SETTINGS: usize = 8;

pub(crate) const OUTCOME: usize = 9;

pub(crate) const STEPS: usize = 10;

pub(crate) const FOUND: usize = 11;

pub(crate) const TAGS: usize = 12;

pub(crate) fn rule_at(i: usize) -> Rule
    ensures { result ≡ rule_at i }
{
    if i < TAGS {
        return RULES[i];
    }
    NO_RULE
}

// Whether the form has the rule's tag.
pub(crate) fn is_of(form: Form, rule: Rule) -> bool
    ensures { result ≡ has_tag form rule }
{
    match rule.form {
        Some(own) => own == form,
        None => false,
    }
}

// The place of a tag's first rule among these.
fn place_in(rules: &[Rule], tag: u64) -> Option<usize>
    ensures { result ≡ position (λ r. eqb r.tag tag) rules.now }
{
    rules.iter().position(|rule| rule.tag as u64 == tag)
}

// A tag's place in the table; 12 for a tag that is not there.
pub(crate) fn rule_index(tag: u64) -> usize
    ensures { result ≡ index_of tag }
{
    place_in(&RULES, tag).unwrap_or(TAGS)
}

// The bytes that a field's content must have. n ≤ 32 is asked here and by seven functions of job.rt, answer.rt and record.rt: each has it from a test just before, and a struct for n that
// held it would be made at five places and opened wherever n is used.
pub(crate) fn rule_length(i: usize, n: usize) -> usize
    requires { n ≤ 32 }
    ensures { result ≡ rule_length i n }
{
    let rule = rule_at(i);
    rule.base as usize + rule.factor as usize * n.pow(rule.power as u32)
}
