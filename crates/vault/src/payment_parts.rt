//! Payments that are combined into one and split into several in a turn's draft. Its one contract: the
//! definitions of specs/, and the laws that its functions state of them: by way of the hand they make
//! the table of what is written, the payments are spent and the new ones live, nothing else of the
//! lists changes, and the hand stays. The bodies are empty: what they state is proved of the
//! definitions.

ghost use Rattle.std.specs.Prelude.{◌≡◌, ◌<◌, length};
ghost use Rattle.vault.specs.Together.{HandHoldsGiven, HandStays, after_all};
ghost use Rattle.vault.specs.Combinations.{AreLive, brand_of_all, combination_done, combination_written, combined_lists};
ghost use Rattle.vault.specs.Splits.{split_done, split_lists, split_written};
ghost use Rattle.vault_model.specs.rights_model.Table.{table_after};
ghost use Rattle.vault.specs.Drafts.{DraftState, IsValid, table_now};

use vault_model::amount_math_lib::Value;

/// A combination of live payments that was done makes the table of what is written of it. Those payments
/// are spent then, the new one has all that they had, and the lists are else as they were.
pub fn a_combination_of_payments(payments: &[u32])
    ghost before: { DraftState }
    ensures table { AreLive before.now (brand_of_all before.now payments.now) payments.now
        → IsValid (after_all before (combination_done before.now payments.now))
        → table_now (after_all before (combination_done before.now payments.now))
        ≡ table_after (table_now before) (combination_written before.now payments.now) }
    ensures lists { (after_all before (combination_done before.now payments.now)).now
        ≡ combined_lists before.now payments.now }
    ensures hand { HandHoldsGiven before
        → HandStays before (after_all before (combination_done before.now payments.now)) }
{}

/// A split of a payment that was done makes the table of what is written of it. The payment is spent then,
/// each value has a payment of its own, and the lists are else as they were.
pub fn a_split_of_a_payment(payment: u32, values: &[Value])
    ghost before: { DraftState }
    ensures table { payment < length before.now.payments
        → IsValid (after_all before (split_done before.now payment values.now))
        → table_now (after_all before (split_done before.now payment values.now))
        ≡ table_after (table_now before) (split_written before.now payment values.now) }
    ensures lists { (after_all before (split_done before.now payment values.now)).now
        ≡ split_lists before.now payment values.now }
    ensures hand { HandHoldsGiven before
        → HandStays before (after_all before (split_done before.now payment values.now)) }
{}
