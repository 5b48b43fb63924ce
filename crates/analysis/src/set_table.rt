// The set table behind a prepared program's code: what an operator on sets reads is one word of it.

ghost use Rattle.std.specs.Prelude.{◌≡◌, length};
ghost use Rattle.program.specs.Parts.Prepared.{code_length};
ghost use Rattle.signs.specs.Grid as spec;
ghost use Rattle.analysis.specs.Parts.Tabled as parts;

use crate::evaluator::Machine;
use program::prepared::{CODE, TABLE};
use signs::{Operator, grid};

// Puts it there.
pub(crate) fn put(code: &mut [u16; CODE])
    requires { length code.old ≡ code_length }
    ensures { parts.TablePut code.old code.new }
{
    let table = grid::set_table();
    for (k, place) in code[TABLE..].iter_mut().enumerate() {
        *place = table[k / 8][k % 8] as u16;
    }
}

impl Machine<'_> {
    // An operator on two sets, out of it.
    pub(crate) fn operate(self, operator: Operator, a: u8, b: u8) -> u8
        ensures { result ≡ spec.operate operator a b }
    {
        let code = self.code;
        grid::operate_by(&code[TABLE..], operator, a, b)
    }
}
