//! The grammar of a query as steps from token to token. A chain of any length goes round the same few steps.

use cells::{Mark, Token};

/// What a token is for the grammar.
#[derive(Clone, Copy)]
pub enum Kind {
    Name,
    Literal,
    Open,
    Close,
    Comma,
    Asterisk,
    Comparison,
    Select,
    From,
    Where,
    Group,
    By,
    Having,
    /// ROLLUP or CUBE.
    Lists,
    Grouping,
    Sets,
    Count,
    /// SUM, MIN or MAX.
    Fold,
    Distinct,
    And,
    Or,
    Not,
    Is,
    Null,
    Between,
    In,
    /// INT, TEXT or KEY, which stand in no query.
    Type,
}

/// All kinds that stand in a query, in the order in which a reason lists them.
pub const KINDS: [Kind; 26] = [
    Kind::Name,
    Kind::Literal,
    Kind::Select,
    Kind::Distinct,
    Kind::Asterisk,
    Kind::Count,
    Kind::Fold,
    Kind::Lists,
    Kind::Grouping,
    Kind::Sets,
    Kind::Comparison,
    Kind::Is,
    Kind::Not,
    Kind::Null,
    Kind::Between,
    Kind::In,
    Kind::And,
    Kind::Or,
    Kind::Open,
    Kind::Comma,
    Kind::Close,
    Kind::From,
    Kind::Where,
    Kind::Group,
    Kind::By,
    Kind::Having,
];

/// The kind as a reason names it.
pub fn word_of(kind: Kind) -> &'static str {
    match kind {
        Kind::Name => "a name",
        Kind::Literal => "a literal",
        Kind::Select => "SELECT",
        Kind::Distinct => "DISTINCT",
        Kind::Asterisk => "*",
        Kind::Count => "COUNT",
        Kind::Fold => "SUM, MIN, MAX",
        Kind::Lists => "ROLLUP, CUBE",
        Kind::Grouping => "GROUPING",
        Kind::Sets => "SETS",
        Kind::Comparison => "a comparison",
        Kind::Is => "IS",
        Kind::Not => "NOT",
        Kind::Null => "NULL",
        Kind::Between => "BETWEEN",
        Kind::In => "IN",
        Kind::And => "AND",
        Kind::Or => "OR",
        Kind::Open => "(",
        Kind::Comma => "a comma",
        Kind::Close => ")",
        Kind::From => "FROM",
        Kind::Where => "WHERE",
        Kind::Group => "GROUP BY",
        Kind::By => "BY",
        Kind::Having => "HAVING",
        Kind::Type => "a type",
    }
}

/// What the token is.
pub fn kind_of(token: &Token) -> Kind {
    match token {
        Token::Word(word) => kind_of_word(word.as_str()),
        Token::Number(_) | Token::Quoted(_) => Kind::Literal,
        Token::Mark(Mark::LeftParen) => Kind::Open,
        Token::Mark(Mark::RightParen) => Kind::Close,
        Token::Mark(Mark::Comma) => Kind::Comma,
        Token::Mark(Mark::Asterisk) => Kind::Asterisk,
        Token::Mark(_) => Kind::Comparison,
    }
}

/// What the word is, which is in upper case.
fn kind_of_word(word: &str) -> Kind {
    match word {
        "SELECT" => Kind::Select,
        "FROM" => Kind::From,
        "WHERE" => Kind::Where,
        "GROUP" => Kind::Group,
        "BY" => Kind::By,
        "HAVING" => Kind::Having,
        "ROLLUP" | "CUBE" => Kind::Lists,
        "GROUPING" => Kind::Grouping,
        "SETS" => Kind::Sets,
        "COUNT" => Kind::Count,
        "SUM" | "MIN" | "MAX" => Kind::Fold,
        "DISTINCT" => Kind::Distinct,
        _ => kind_of_test_word(word),
    }
}

fn kind_of_test_word(word: &str) -> Kind {
    match word {
        "AND" => Kind::And,
        "OR" => Kind::Or,
        "NOT" => Kind::Not,
        "IS" => Kind::Is,
        "NULL" => Kind::Null,
        "BETWEEN" => Kind::Between,
        "IN" => Kind::In,
        "INT" | "TEXT" | "KEY" => Kind::Type,
        _ => Kind::Name,
    }
}

/// A place between the tokens of a query, by what was read last or what comes next.
#[derive(Clone, Copy)]
pub enum Step {
    Select,
    /// The places of operands: an item, the second operand of a comparison, and the bounds of BETWEEN.
    Item,
    Right,
    Low,
    High,
    /// A predicate, and the same behind NOT. A left operand may begin it.
    Condition,
    AfterNot,
    CountOpen,
    Counted,
    CallOpen,
    CallName,
    CallClose,
    GroupingOpen,
    GroupingName,
    AfterGroupingName,
    /// Behind an operand, whichever it is.
    AfterOperand,
    AfterItem,
    Table,
    AfterTable,
    AfterLeft,
    AfterLeftNot,
    AfterIs,
    AfterIsNot,
    AfterLow,
    InOpen,
    InLiteral,
    AfterInLiteral,
    AfterTest,
    By,
    FirstElement,
    Element,
    /// Behind the `(` of an element, and then in its list of names.
    EmptyOrName,
    SetName,
    AfterSetName,
    /// ROLLUP or CUBE, its units, and the names of a unit in parentheses.
    ListOpen,
    Unit,
    AfterUnit,
    UnitName,
    AfterUnitName,
    Sets,
    SetsOpen,
    AfterElement,
}

/// The steps: from where, by which kind of token, to where. Those by the first token of an operand are left out.
const STEPS: [(Step, Kind, Step); 69] = [
    (Step::Select, Kind::Select, Step::Item),
    (Step::CountOpen, Kind::Open, Step::Counted),
    (Step::Counted, Kind::Asterisk, Step::CallClose),
    (Step::Counted, Kind::Name, Step::CallClose),
    (Step::Counted, Kind::Distinct, Step::CallName),
    (Step::CallOpen, Kind::Open, Step::CallName),
    (Step::CallName, Kind::Name, Step::CallClose),
    (Step::CallClose, Kind::Close, Step::AfterOperand),
    (Step::GroupingOpen, Kind::Open, Step::GroupingName),
    (Step::GroupingName, Kind::Name, Step::AfterGroupingName),
    (Step::AfterGroupingName, Kind::Comma, Step::GroupingName),
    (Step::AfterGroupingName, Kind::Close, Step::AfterOperand),
    (Step::AfterItem, Kind::Comma, Step::Item),
    (Step::AfterItem, Kind::From, Step::Table),
    (Step::Table, Kind::Name, Step::AfterTable),
    (Step::AfterTable, Kind::Where, Step::Condition),
    (Step::AfterTable, Kind::Group, Step::By),
    (Step::AfterTable, Kind::Having, Step::Condition),
    (Step::Condition, Kind::Not, Step::AfterNot),
    (Step::Condition, Kind::Open, Step::Condition),
    (Step::AfterNot, Kind::Open, Step::Condition),
    (Step::AfterLeft, Kind::Comparison, Step::Right),
    (Step::AfterLeft, Kind::Is, Step::AfterIs),
    (Step::AfterLeft, Kind::Not, Step::AfterLeftNot),
    (Step::AfterLeft, Kind::Between, Step::Low),
    (Step::AfterLeft, Kind::In, Step::InOpen),
    (Step::AfterLeftNot, Kind::Between, Step::Low),
    (Step::AfterLeftNot, Kind::In, Step::InOpen),
    (Step::AfterIs, Kind::Not, Step::AfterIsNot),
    (Step::AfterIs, Kind::Null, Step::AfterTest),
    (Step::AfterIsNot, Kind::Null, Step::AfterTest),
    (Step::AfterLow, Kind::And, Step::High),
    (Step::InOpen, Kind::Open, Step::InLiteral),
    (Step::InLiteral, Kind::Literal, Step::AfterInLiteral),
    (Step::AfterInLiteral, Kind::Comma, Step::InLiteral),
    (Step::AfterInLiteral, Kind::Close, Step::AfterTest),
    (Step::AfterTest, Kind::And, Step::Condition),
    (Step::AfterTest, Kind::Or, Step::Condition),
    (Step::AfterTest, Kind::Close, Step::AfterTest),
    (Step::AfterTest, Kind::Group, Step::By),
    (Step::AfterTest, Kind::Having, Step::Condition),
    (Step::By, Kind::By, Step::FirstElement),
    (Step::FirstElement, Kind::Distinct, Step::Element),
    (Step::FirstElement, Kind::Name, Step::AfterElement),
    (Step::FirstElement, Kind::Open, Step::EmptyOrName),
    (Step::FirstElement, Kind::Lists, Step::ListOpen),
    (Step::FirstElement, Kind::Grouping, Step::Sets),
    (Step::Element, Kind::Name, Step::AfterElement),
    (Step::Element, Kind::Open, Step::EmptyOrName),
    (Step::Element, Kind::Lists, Step::ListOpen),
    (Step::Element, Kind::Grouping, Step::Sets),
    (Step::EmptyOrName, Kind::Close, Step::AfterElement),
    (Step::EmptyOrName, Kind::Name, Step::AfterSetName),
    (Step::SetName, Kind::Name, Step::AfterSetName),
    (Step::AfterSetName, Kind::Comma, Step::SetName),
    (Step::AfterSetName, Kind::Close, Step::AfterElement),
    (Step::ListOpen, Kind::Open, Step::Unit),
    (Step::Unit, Kind::Name, Step::AfterUnit),
    (Step::Unit, Kind::Open, Step::UnitName),
    (Step::UnitName, Kind::Name, Step::AfterUnitName),
    (Step::AfterUnitName, Kind::Comma, Step::UnitName),
    (Step::AfterUnitName, Kind::Close, Step::AfterUnit),
    (Step::AfterUnit, Kind::Comma, Step::Unit),
    (Step::AfterUnit, Kind::Close, Step::AfterElement),
    (Step::Sets, Kind::Sets, Step::SetsOpen),
    (Step::SetsOpen, Kind::Open, Step::Element),
    (Step::AfterElement, Kind::Comma, Step::Element),
    (Step::AfterElement, Kind::Close, Step::AfterElement),
    (Step::AfterElement, Kind::Having, Step::Condition),
];

/// The step behind a token of the kind, where one leads on from here.
pub fn step_behind(step: Step, kind: Kind) -> Option<Step> {
    for (from, by, to) in &STEPS {
        if *from as u8 == step as u8 && *by as u8 == kind as u8 {
            return Some(*to);
        }
    }
    None
}
