// The operators of document 01, and document 02's for scaling, grouped by what they do with their operands.
#[derive(Clone, Copy)]
pub enum Arithmetic {
    Plus,
    Minus,
    Times,
    DividedBy,
    Modulus,
}

#[derive(Clone, Copy)]
pub enum Comparison {
    Equals,
    NotEquals,
    LessThan,
    LessOrEqual,
    GreaterThan,
    GreaterOrEqual,
}

#[derive(Clone, Copy)]
pub enum Connective {
    And,
    Or,
    Xor,
}

#[derive(Clone, Copy)]
pub enum Extremum {
    Min,
    Max,
}

#[derive(Clone, Copy)]
pub enum Binary {
    Arithmetic(Arithmetic),
    Comparison(Comparison),
    Logical(Connective),
    Bitwise(Connective),
    Extremum(Extremum),
}

#[derive(Clone, Copy)]
pub enum Conversion {
    ToChar,
    ToInt,
    ToFloat,
    Round,
    Floor,
    Ceil,
}

#[derive(Clone, Copy)]
pub enum Unary {
    Increment,
    Decrement,
    UnaryMinus,
    LogicalNot,
    BitwiseNot,
    Convert(Conversion),
    Abs,
    Sq,
    Sqrt,
}

// Document 02, Q-3: CONSTRAIN of three operands, MAP of five, POW of two. Crate scaling has what they answer.
#[derive(Clone, Copy)]
pub enum Scaling {
    Constrain,
    Map,
    Power,
}

#[derive(Clone, Copy)]
pub enum Operator {
    OfOne(Unary),
    OfTwo(Binary),
    Scale(Scaling),
}
