// Bindings of names as bindings of options.
ghost use Rattle.std.specs.Prelude.{◌≡◌, ◌<◌, ◌≤◌, ℕ, List, Bool, true, nat_eq, nat_lt, None, Some, map, length, slice_index_or, IfOk, IfErr, OnOk, IfNone};
ghost use Rattle.std.specs.List.{list_all, range_with_len};
ghost use Rattle.cov_base.specs.declared.limits.TheConstants.{CHOICE_WIDTH};
ghost use Rattle.cov_expr.specs.Partials.{bound_value, partial_of};
ghost use Rattle.cov_expr.specs.Binding.{numbered, first_undeclared, first_repeated, bound, IsUnknown, IsRepetition};

use crate::{Options, Partial, RawChoice};
use cov_base::{Memory, OptionId, Text};
use std::alloc::Global;

/// What is wrong with the bindings of a choice.
#[derive(Debug, Drop)]
pub enum BindFault {
    /// The first name that is no option's.
    UnknownOption { name: Text },
    /// The first option that is bound a second time.
    Repeated { option: OptionId },
    Memory,
}

impl From<Memory> for BindFault {
    ghost use Rattle.cov_expr.specs.declared.binding.BindFault.TheVariants.{Memory as wanting};

    ghost from_gives = { λ _ fault. fault ≡ wanting };

    fn from(_: Memory) -> Self {
        BindFault::Memory
    }
}

// The bindings with options in place of their names.
pub(crate) fn resolve(
    alloc: Global,
    bindings: &[(Text, bool)],
    options: &Options,
) -> Result<Vec<(OptionId, bool)>, BindFault>
    ensures declared { OnOk result (first_undeclared options.now.names bindings.now ≡ None) }
    ensures numbers { IfOk result (λ found. found.items ≡ numbered options.now.names bindings.now) }
    ensures within { IfOk result (λ found.
        list_all (λ b. nat_lt b.0 (length options.now.names)) found.items ≡ true) }
    ensures unknown { IfErr result (IsUnknown (first_undeclared options.now.names bindings.now)) }
{
    let mut found = Vec::new(alloc);
    for (name, on) in bindings {
        match options.find(name.as_slice()) {
            None => return Err(BindFault::UnknownOption { name: name.copy()? }),
            Some(option) => found.push((option, *on)).map_err(|_| Memory)?,
        }
    }
    Ok(found)
}

// The partial choice that bindings of the first `count` options are.
pub(crate) fn gather(
    alloc: Global,
    bindings: &[(OptionId, bool)],
    count: u8,
) -> Result<Partial, BindFault>
    requires count { count ≤ CHOICE_WIDTH }
    requires within { list_all (λ b. nat_lt b.0 count) bindings.now ≡ true }
    ensures once { OnOk result (first_repeated bindings.now ≡ None) }
    ensures partial { IfOk result (λ partial. partial ≡ partial_of count bindings.now) }
    ensures below { IfOk result (λ partial. list_all (λ b. nat_lt b.0 count) partial ≡ true) }
    ensures repeated { IfErr result (IsRepetition (first_repeated bindings.now)) }
{
    let mut values = vec![in alloc; None; count as usize].map_err(|_| Memory)?;
    if let Some(option) = fill(values.as_mut_slice(), bindings) {
        return Err(BindFault::Repeated { option });
    }
    Ok(Partial::of_values(alloc, values.as_slice())?)
}

// Writes each option's value to its place. It stops at the first option that has a value already, and answers it.
fn fill(values: &mut [Option<bool>], bindings: &[(OptionId, bool)]) -> Option<OptionId>
    requires blank { (k : ℕ) → slice_index_or values.old k None ≡ None }
    requires within { list_all (λ b. nat_lt b.0 (length values.old)) bindings.now ≡ true }
    ensures repeated { result ≡ first_repeated bindings.now }
    ensures values { IfNone result (values.new ≡
        map (bound_value bindings.now) (range_with_len 0 (length values.old))) }
{
    for (option, on) in bindings {
        let value = &mut values[option.number() as usize];
        if value.is_some() {
            return Some(*option);
        }
        *value = Some(*on);
    }
    None
}
