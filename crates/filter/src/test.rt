//! Terms at their leaves.

use crate::operand::Operand;
use crate::term::Op;
use schema::{Order, Step};

/// A term of a filter at its leaf: the leaf's index among the leaves, the path to it as its first step and
/// the rest, and its order.
#[derive(Drop)]
pub struct Test {
    pub leaf: usize,
    pub first: Step,
    pub rest: Vec<Step>,
    pub order: Option<Order>,
    pub op: Op,
    pub operand: Operand,
}
