//! What is offered, as it is read of a call's data (Zoe).

ghost use Rattle.call_arguments.specs.Records.{share_data, shares_data};
ghost use Rattle.offer_calls.specs.ProposalSteps.{can_stand, given, proposed_by, read_by, rule_of, standing, valued_share, with_give};
ghost use Rattle.offer_calls.specs.Views.{CanBeShares, given_view, proposed_view};
ghost use Rattle.refusals.specs.Codes.{bad_args, bad_value};
ghost use Rattle.refusals.specs.Outcomes.{Gives, need, wanted};
ghost use Rattle.refusals.specs.host_data.Amounts.{read_all, seen};
ghost use Rattle.refusals.specs.host_data.View.{named_trees};
ghost use Rattle.refusals.specs.host_text.Words.{is_keyword};
ghost use Rattle.rules.specs.Proposals.{amounts_of, has_parts, is_part, part, proposed};
ghost use Rattle.rules.specs.Words.{record_in};
ghost use Rattle.std.specs.List.{list_all};
ghost use Rattle.std.specs.Prelude.{◌≡◌, ◌<◌, ◌^◌, OnOk, true};

use crate::keywords::{check_known, check_paid, check_shared};
use amount_math::Amount;
use call_arguments::amounts::value;
use call_arguments::exit_arguments::exit;
use call_arguments::records::{GivenShare, amounts, check_keywords};
use ertp_calls::records::{keyword_of, record_in};
use refusals::codes::NumberCode;
use refusals::host_data_lib::data::Data;
use refusals::host_text_lib::text::Text;
use refusals::stops::Stop;
use rules::brands_lib::issuer_record::Issuer;
use rules::proposals_lib::allocations::Share;
use rules::proposals_lib::offers::Exit;
use std::alloc::Global;

/// The shares of give and of want, and the payments, as they are given.
#[derive(Drop)]
pub struct Given<'a> {
    pub give: Vec<GivenShare<'a>>,
    pub want: Vec<GivenShare<'a>>,
    pub payments: &'a [(Text, Data)],
}

/// A proposal's shares and rule, and the payments as they are given, each under a keyword of give.
#[derive(Drop)]
pub struct Proposed<'a> {
    pub give: Vec<Share>,
    pub want: Vec<Share>,
    pub exit: Exit,
    pub payments: &'a [(Text, Data)],
}

/// The part of a proposal under a name.
fn part<'a>(name: &str, given: Option<&'a Data>) -> Option<&'a Data>
    ensures { seen result ≡ part name.now (seen given.entry) }
{
    given?.field(name)
}

/// Whether a proposal has a part of the name.
fn is_part(name: &str) -> bool
    ensures { result ≡ is_part name.now }
{
    name == "give" || name == "want" || name == "exit"
}

/// Whether all names are those of parts.
fn are_parts(fields: &[(Text, Data)]) -> bool
    ensures { result ≡ list_all (λ f. is_part f.0) (named_trees fields.now) }
{
    for (name, _) in fields {
        if !is_part(name.as_str()) {
            return false;
        }
    }
    true
}

/// Whether data is a record with no field but give, want and exit.
#[tactic(auto, unfolding(rules::specs::Proposals::has_parts))]
fn has_parts(given: Option<&Data>) -> bool
    ensures { result ≡ has_parts (seen given.entry) }
{
    match record_in(given) {
        Some(fields) => are_parts(fields),
        None => false,
    }
}

/// That data has the form of a proposal: else `BadArgs` 2 (own).
#[tactic(auto, unfolding(refusals::specs::Outcomes::need))]
fn check_parts(given: Option<&Data>) -> Result<(), Stop>
    ensures { Gives (λ _. tt) result (need (has_parts (seen given.entry)) (bad_args 2)) }
{
    if has_parts(given) {
        Ok(())
    } else {
        Err(Stop::numbered(NumberCode::BadArgs, 2))
    }
}

/// The amounts of a record: else `BadArgs` 2.
#[tactic(auto, unfolding(rules::specs::Proposals::amounts_of, call_arguments::specs::Records::amounts_under, refusals::specs::Outcomes::wanted))]
fn amounts_of<'a>(alloc: Global, given: Option<&'a Data>) -> Result<Vec<GivenShare<'a>>, Stop>
    ensures { Gives (λ shares. shares_data shares.items) result
        (wanted (amounts_of (seen given.entry)) (bad_args 2)) }
{
    match record_in(given) {
        Some(fields) => amounts(alloc, 2, fields),
        None => Err(Stop::numbered(NumberCode::BadArgs, 2)),
    }
}

/// The fields of the record of payments: else `BadArgs` 3.
#[tactic(auto, unfolding(refusals::specs::Outcomes::wanted))]
fn payments_in(given: Option<&Data>) -> Result<&[(Text, Data)], Stop>
    ensures { Gives (λ fields. named_trees fields.now) result
        (wanted (record_in (seen given.entry)) (bad_args 3)) }
{
    match record_in(given) {
        Some(fields) => Ok(fields),
        None => Err(Stop::numbered(NumberCode::BadArgs, 3)),
    }
}

/// What is given, of which give was read.
#[tactic(auto, unfolding(crate::specs::ProposalSteps::with_give, refusals::specs::Outcomes::bind))]
fn read_given_with<'a>(
    alloc: Global,
    give: Vec<GivenShare<'a>>,
    proposal: Option<&'a Data>,
    payments: Option<&'a Data>,
) -> Result<Given<'a>, Stop>
    ensures { Gives given_view result
        (with_give (shares_data give.entry.items) (seen proposal.entry) (seen payments.entry)) }
{
    let want = amounts_of(alloc, part("want", proposal))?;
    let payments = payments_in(payments)?;
    Ok(Given {
        give,
        want,
        payments,
    })
}

/// What is given, where all of it has its form: else `BadArgs` 2 and 3 (own).
#[tactic(auto, unfolding(crate::specs::ProposalSteps::given, refusals::specs::Outcomes::bind))]
fn read_given<'a>(
    alloc: Global,
    proposal: Option<&'a Data>,
    payments: Option<&'a Data>,
) -> Result<Given<'a>, Stop>
    ensures { Gives given_view result (given (seen proposal.entry) (seen payments.entry)) }
{
    check_parts(proposal)?;
    let give = amounts_of(alloc, part("give", proposal))?;
    read_given_with(alloc, give, proposal, payments)
}

/// That what is given can stand, each test over all shares before the next, give before want: else `BadKeyword`,
/// `KeywordMismatch`, `WrongBrand` (Zoe).
#[tactic(auto, using(crate::proofs::ReadShares::can_be_shares), unfolding(crate::specs::ProposalSteps::can_stand, refusals::specs::Outcomes::bind))]
fn check_given(alloc: Global, issuers: &[Issuer], given: &Given) -> Result<(), Stop>
    ensures gives { Gives (λ _. tt) result (can_stand issuers.now (given_view given.now)) }
    ensures give { OnOk result (CanBeShares given.now.give.items) }
    ensures want { OnOk result (CanBeShares given.now.want.items) }
{
    let (give, want) = (given.give.as_slice(), given.want.as_slice());
    check_keywords(alloc, give)?;
    check_keywords(alloc, want)?;
    check_shared(alloc, give, want)?;
    check_known(issuers, give, want)
}

/// A share with the value that its data stands for: else `BadValue` (ERTP).
#[tactic(auto, unfolding(refusals::specs::Outcomes::wanted))]
fn share_with_value(alloc: Global, share: &GivenShare) -> Result<Share, Stop>
    requires named { is_keyword share.now.keyword.now ≡ true }
    requires small { share.now.amount.brand < 2 ^ 16 }
    ensures { Gives (λ made. made) result (wanted (valued_share (share_data share.now)) bad_value) }
{
    let value = value(alloc, share.amount.kind, share.amount.value)?;
    let brand = share.amount.brand as u16;
    match keyword_of(alloc, share.keyword) {
        Ok(keyword) => Ok(Share {
            keyword,
            amount: Amount { brand, value },
        }),
        Err(_) => {
            drop(value);
            Err(Stop::NoMemory)
        }
    }
}

/// Shares with the values that their data stands for: else `BadValue` (ERTP).
#[tactic(auto, unfolding(refusals::specs::Outcomes::wanted))]
fn shares_with_values(alloc: Global, shares: &[GivenShare]) -> Result<Vec<Share>, Stop>
    requires { CanBeShares shares.now }
    ensures { Gives (λ shares. shares.items) result
        (wanted (read_all valued_share (shares_data shares.now)) bad_value) }
{
    let mut made = Vec::new(alloc);
    for share in shares {
        made.push(share_with_value(alloc, share)?)?;
    }
    Ok(made)
}

/// The rule, where each share of give has its payment: else `BadExit`, `KeywordMismatch` (Zoe).
#[tactic(auto, unfolding(crate::specs::ProposalSteps::rule_of, call_arguments::specs::Exits::exit, refusals::specs::Outcomes::bind))]
fn rule_of(alloc: Global, given: &Given, rule: Option<&Data>) -> Result<Exit, Stop>
    ensures { Gives (λ exit. exit) result (rule_of (given_view given.now) (seen rule.entry)) }
{
    let exit = exit(rule)?;
    check_paid(alloc, given.give.as_slice(), given.payments)?;
    Ok(exit)
}

/// What is proposed by shares that can stand: else `BadValue`, `BadExit`, `KeywordMismatch` (Zoe).
#[tactic(auto, unfolding(crate::specs::ProposalSteps::proposed_by, refusals::specs::Outcomes::bind))]
fn propose<'a>(alloc: Global, given: &Given<'a>, rule: Option<&Data>) -> Result<Proposed<'a>, Stop>
    requires give { CanBeShares given.now.give.items }
    requires want { CanBeShares given.now.want.items }
    ensures { Gives proposed_view result (proposed_by (given_view given.now) (seen rule.entry)) }
{
    let give = shares_with_values(alloc, given.give.as_slice())?;
    let want = shares_with_values(alloc, given.want.as_slice())?;
    let exit = rule_of(alloc, given, rule)?;
    Ok(Proposed {
        give,
        want,
        exit,
        payments: given.payments,
    })
}

/// What is proposed by what is given, where it can stand.
#[tactic(auto, unfolding(crate::specs::ProposalSteps::standing, refusals::specs::Outcomes::bind))]
fn test_and_propose<'a>(
    alloc: Global,
    issuers: &[Issuer],
    given: &Given<'a>,
    rule: Option<&Data>,
) -> Result<Proposed<'a>, Stop>
    ensures { Gives proposed_view result
        (standing issuers.now (given_view given.now) (seen rule.entry)) }
{
    check_given(alloc, issuers, given)?;
    propose(alloc, given, rule)
}

/// A proposal and its payments, in three steps.
#[tactic(auto, unfolding(crate::specs::ProposalSteps::read_by, refusals::specs::Outcomes::bind))]
fn read_and_propose<'a>(
    alloc: Global,
    issuers: &[Issuer],
    proposal: Option<&'a Data>,
    payments: Option<&'a Data>,
) -> Result<Proposed<'a>, Stop>
    ensures { Gives proposed_view result
        (read_by issuers.now (seen proposal.entry) (seen payments.entry)) }
{
    let given = read_given(alloc, proposal, payments)?;
    test_and_propose(alloc, issuers, &given, part("exit", proposal))
}

/// A proposal and its payments (Zoe), each test over all shares before the next, give before want: `BadArgs` 2,
/// `BadArgs` 3, `BadKeyword`, `KeywordMismatch`, `WrongBrand`, `BadValue`, `BadExit`, `KeywordMismatch`.
pub fn read_proposal<'a>(
    alloc: Global,
    issuers: &[Issuer],
    proposal: Option<&'a Data>,
    payments: Option<&'a Data>,
) -> Result<Proposed<'a>, Stop>
    ensures { Gives proposed_view result
        (proposed issuers.now (seen proposal.entry) (seen payments.entry)) }
{
    read_and_propose(alloc, issuers, proposal, payments)
}
