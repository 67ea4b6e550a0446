ghost use Rattle.std.specs.Prelude.{◌≡◌, ◌≢◌, ◌<◌, ◌^◌, ℕ, pos, FitsSigned, IfErr, IfOk};
ghost use Rattle.std.specs.Int.{w32};
ghost use Rattle.gate_text.specs.SmallTexts.{commit_of, name_of, plain_of};
ghost use Rattle.gate_rows.specs.Words.{IsReadAs, IsReadBy, small_told};

use gate_tables::TablesFault;
use gate_text::{ChangeNo, Commit, Context, Label, Name, Text, TextFault, unless_bad};
use std::alloc::Global;

// A small text that was read. What is none stands in no row.
fn small<T>(read: Result<T, TextFault>) -> Result<T, TablesFault>
    ensures { result ≡ small_told read }
{
    unless_bad(read)?.ok_or(TablesFault::Store)
}

#[tactic(auto, using(crate::proofs::Words::told_as_read))]
pub(crate) fn name(alloc: Global, text: &Text) -> Result<Name, TablesFault>
    ensures { IsReadAs (name_of text.now) result }
{
    small(Name::read(alloc, text.as_str()))
}

#[tactic(auto, using(crate::proofs::Words::told_as_read))]
pub(crate) fn label(alloc: Global, text: &Text) -> Result<Label, TablesFault>
    ensures { IsReadAs (plain_of text.now) result }
{
    small(Label::read(alloc, text.as_str()))
}

#[tactic(auto, using(crate::proofs::Words::told_as_read))]
pub(crate) fn context(alloc: Global, text: &Text) -> Result<Context, TablesFault>
    ensures { IsReadAs (plain_of text.now) result }
{
    small(Context::read(alloc, text.as_str()))
}

#[tactic(auto, using(crate::proofs::Words::told_as_read))]
pub(crate) fn commit(text: &Text) -> Result<Commit, TablesFault>
    ensures { IsReadAs (commit_of text.now) result }
{
    small(Commit::read(text.as_str()))
}

pub(crate) fn natural(number: i64) -> Result<u64, TablesFault>
    ensures { IsReadBy pos number result }
{
    u64::try_from(number).map_err(|_| TablesFault::Store)
}

pub(crate) fn small_natural(number: i64) -> Result<u32, TablesFault>
    ensures some { IfOk result (λ natural. number ≡ pos natural) }
    ensures none { IfErr result
        (λ fault. (fault ≡ TablesFault.Store) × ((natural : ℕ) → natural < 2 ^ 32 → number ≢ pos natural)) }
{
    u32::try_from(number).map_err(|_| TablesFault::Store)
}

pub(crate) fn priority(number: i64) -> Result<i32, TablesFault>
    ensures some { IfOk result (λ priority. priority ≡ number) }
    ensures none { IfErr result (λ fault. (fault ≡ TablesFault.Store) × ¬ FitsSigned w32 number) }
{
    i32::try_from(number).map_err(|_| TablesFault::Store)
}

pub(crate) fn change_no(number: i64) -> Result<ChangeNo, TablesFault>
    ensures some { IfOk result (λ change. number ≡ pos change) }
    ensures none { IfErr result (λ fault. fault ≡ TablesFault.Store) }
{
    ChangeNo::from_number(natural(number)?).ok_or(TablesFault::Store)
}
