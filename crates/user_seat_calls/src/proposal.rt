//! Proposals as they are offered, as data (Zoe).

ghost use Rattle.host_data.specs.Tree.{field, fields, no_fields};
ghost use Rattle.host_data.specs.View.{named_trees, tree};
ghost use Rattle.rules.specs.Records.{allocation_tree, deadline_tree, exit_tree, proposal_tree};
ghost use Rattle.std.specs.Prelude.{◌≡◌, ◌++◌, ◌∷◌, [], IfOk, OnOk};

use host_data::data::{Data, ObjKind};
use host_data::values::object_data;
use refusals::host_text_lib::text::Text;
use rules::proposals_lib::allocations::Share;
use rules::proposals_lib::offers::{Exit, Proposal};
use std::alloc::{AllocError, Global};
use world_reads::record_data::{allocation_data, put};

/// A deadline with its timer.
fn deadline_data(alloc: Global, time: u64) -> Result<Data, AllocError>
    ensures { IfOk result (λ made. tree made ≡ deadline_tree time) }
{
    let mut fields = Vec::new(alloc);
    put(
        alloc,
        &mut fields,
        "deadline",
        Data::Number(i128::from(time)),
    )?;
    put(alloc, &mut fields, "timer", object_data(ObjKind::Timer, 0))?;
    Ok(Data::Record(fields))
}

/// A record of one field.
fn rule_data(alloc: Global, name: &str, rule: Data) -> Result<Data, AllocError>
    ensures { IfOk result (λ made. tree made ≡ fields (field name.now (tree rule) no_fields)) }
{
    let mut fields = Vec::new(alloc);
    put(alloc, &mut fields, name, rule)?;
    Ok(Data::Record(fields))
}

/// When an offer may be left (Zoe).
fn exit_data(alloc: Global, exit: Exit) -> Result<Data, AllocError>
    ensures { IfOk result (λ made. tree made ≡ exit_tree exit) }
{
    match exit {
        Exit::OnDemand => rule_data(alloc, "onDemand", Data::Null),
        Exit::Waived => rule_data(alloc, "waived", Data::Null),
        Exit::AfterDeadline(time) => {
            rule_data(alloc, "afterDeadline", deadline_data(alloc, time)?)
        }
    }
}

/// Puts the record from keyword to amount at the end of a record that is being made.
fn put_shares(
    alloc: Global,
    fields: &mut Vec<(Text, Data)>,
    name: &str,
    shares: &[Share],
) -> Result<(), AllocError>
    ensures { OnOk result (named_trees fields.new.items
        ≡ named_trees fields.old.items ++ (name.now, allocation_tree shares.now) ∷ []) }
{
    let allocation = allocation_data(alloc, shares)?;
    put(alloc, fields, name, allocation)
}

/// What is given and wanted, and when the offer may be left (Zoe).
pub fn proposal_data(alloc: Global, proposal: &Proposal) -> Result<Data, AllocError>
    ensures { IfOk result (λ made. tree made ≡ proposal_tree proposal.now) }
{
    let rule = exit_data(alloc, proposal.exit)?;
    let mut fields = Vec::new(alloc);
    put(alloc, &mut fields, "exit", rule)?;
    put_shares(alloc, &mut fields, "give", proposal.give.shares())?;
    put_shares(alloc, &mut fields, "want", proposal.want.shares())?;
    Ok(Data::Record(fields))
}
