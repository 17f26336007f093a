//! The tokens with which the text of an expression begins.
ghost use Rattle.std.specs.Prelude.{◌≡◌};
ghost use Rattle.inf_expressions.specs.Origins.{bracketed, bracketed_lead, followed, nowhere, of_leaf, prefixed, variable_of};

use crate::operators::Operand;

/// The first part of the text of an expression, its own brackets counted in: a leaf, or an operator in front with its part.
#[derive(Clone, Copy)]
pub struct Lead {
    /// The order of the first token of this part.
    pub first: u32,
    /// The variable that this part is, if it is one.
    pub variable: Option<u8>,
    /// Tells whether nothing follows the part.
    pub is_whole: bool,
}

/// The tokens at which errors of an expression are reported.
#[derive(Clone, Copy)]
pub struct Origin {
    /// The order of the first token, brackets counted in.
    pub first: u32,
    /// The order of the token at which an error of a leaf is reported.
    pub token: u32,
    pub lead: Lead,
}

/// Returns the origin of no expression.
pub(crate) fn nowhere() -> Origin
    ensures { result ≡ nowhere }
{
    Origin {
        first: 0,
        token: 0,
        lead: Lead {
            first: 0,
            variable: None,
            is_whole: false,
        },
    }
}

fn variable_of(operand: Operand) -> Option<u8>
    ensures { result ≡ variable_of operand }
{
    match operand {
        Operand::Variable(variable) => Some(variable),
        Operand::Known(_) | Operand::Later(_) | Operand::Function(_) | Operand::Unknown => None,
    }
}

impl Origin {
    /// Returns the origin of a leaf with this operand.
    pub(crate) fn of_leaf(first: u32, token: u32, operand: Operand) -> Origin
        ensures { result ≡ of_leaf first token operand }
    {
        Origin {
            first,
            token,
            lead: Lead {
                first,
                variable: variable_of(operand),
                is_whole: true,
            },
        }
    }

    /// Returns the origin of the expression in brackets, of which the opening one has this order.
    pub(crate) fn bracketed(self, order: u32) -> Origin
        ensures { result ≡ bracketed order self }
    {
        Origin {
            first: order,
            token: self.token,
            lead: bracketed_lead(self.lead, order),
        }
    }

    /// Returns the origin of an operator with this order in front of the expression.
    pub(crate) fn prefixed(self, order: u32) -> Origin
        ensures { result ≡ prefixed order self }
    {
        Origin {
            first: order,
            token: self.token,
            lead: Lead {
                first: order,
                variable: None,
                is_whole: true,
            },
        }
    }

    /// Returns the origin of the expression with an operator behind it.
    pub(crate) fn followed(self) -> Origin
        ensures { result ≡ followed self }
    {
        Origin {
            first: self.first,
            token: self.token,
            lead: Lead {
                first: self.lead.first,
                variable: self.lead.variable,
                is_whole: false,
            },
        }
    }
}

fn bracketed_lead(lead: Lead, order: u32) -> Lead
    ensures { result ≡ bracketed_lead order lead }
{
    Lead {
        first: if lead.is_whole { order } else { lead.first },
        variable: lead.variable,
        is_whole: lead.is_whole,
    }
}
