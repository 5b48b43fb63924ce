// Class figures: the mean and the variance of final marks, without rounding, of a list of marks and of two classes joined.
#![tactic(auto)]

pub(crate) mod adding;
pub mod class;
pub(crate) mod reducing;

// A class's totals: the number of its marks, their sum, and the sum of their squares.
#[derive(Clone, Copy)]
pub struct Totals {
    pub count: u32,
    pub sum: i64,
    pub squares: i64,
}

// A numerator over a denominator.
#[derive(Clone, Copy)]
pub struct Fraction {
    pub numerator: i64,
    pub denominator: i64,
}

// What is replied of a class that is not refused.
#[derive(Clone, Copy)]
pub struct Figures {
    pub totals: Totals,
    pub mean: Fraction,
    pub variance: Fraction,
}
