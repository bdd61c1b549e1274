//! Issuers that an instance is given, each under a keyword (Zoe).

ghost use Rattle.std.specs.Prelude.{◌≡◌, ◌<◌, ◌≤◌, ◌++◌, ◌∷◌, [], true, None, All, IfOk, OnOk, length};
ghost use Rattle.brands.specs.Brands.{most_brands};
ghost use Rattle.brands.specs.IssuerRecords.{AreIssuers, brand_under, most_issuers};
ghost use Rattle.rules.specs.call_arguments.Arguments.{IsMade};
ghost use Rattle.ertp_calls.specs.world_reads.Handed.{AreHanded};
ghost use Rattle.brands.specs.host_text.Words.{is_keyword};
ghost use Rattle.ertp_calls.specs.host_world.Worlds.{world_of};
ghost use Rattle.host_data.specs.View.{named_trees, tree, trees};
ghost use Rattle.host_data.specs.declared.data.ObjKind.TheVariants as kinds;
ghost use Rattle.refusals.specs.Codes.{wrong_object};
ghost use Rattle.refusals.specs.Outcomes.{Gives, wanted};
ghost use Rattle.rules.specs.Zoe.{issuer_in, issuers_at};
ghost use Rattle.host_data.specs.Amounts.{read_all};

use brands::host_text_lib::text::Text;
use brands::issuer_record::{Issuer, IssuerFault, IssuerRecord};
use ertp_calls::host_world_lib::World;
use ertp_calls::records::{keyword_of, record_at};
use host_data::data::{Data, ObjKind};
use refusals::codes::NumberCode;
use refusals::stops::Stop;
use rules::call_arguments_lib::places::object_in;
use rules::call_arguments_lib::records::check_names;
use std::alloc::{AllocError, Global};

/// The issuer of a field, of those of which so many were made: else `WrongObject` with the place.
#[tactic(auto, unfolding(refusals::specs::Outcomes::wanted))]
fn issuer_in(alloc: Global, made: u32, place: u32, name: &Text, part: &Data) -> Result<Issuer, Stop>
    requires few { made ≤ most_brands }
    requires known { IsMade kinds.Issuer made (tree part.now) }
    requires named { is_keyword name.now ≡ true }
    ensures { Gives (λ issuer. issuer) result
        (wanted (issuer_in (name.now, tree part.now)) (wrong_object place)) }
{
    let Some(number) = object_in(ObjKind::Issuer, part) else {
        return Err(Stop::numbered(NumberCode::WrongObject, place));
    };
    prove!(number < made);
    let keyword = keyword_of(alloc, name)?;
    let brand = number as u16;
    Ok(Issuer { keyword, brand })
}

/// The issuers of fields, of which so many were made: else `WrongObject` with the place.
#[tactic(auto, unfolding(refusals::specs::Outcomes::wanted))]
fn issuers_of(
    alloc: Global,
    made: u32,
    place: u32,
    fields: &[(Text, Data)],
) -> Result<Vec<Issuer>, Stop>
    requires few { made ≤ most_brands }
    requires known { All (λ f. IsMade kinds.Issuer made (tree f.1)) fields.now }
    requires named { All (λ f. is_keyword f.0 ≡ true) fields.now }
    ensures { Gives (λ is. is.items) result
        (wanted (read_all issuer_in (named_trees fields.now)) (wrong_object place)) }
{
    let mut issuers = Vec::new(alloc);
    for (name, part) in fields {
        issuers.push(issuer_in(alloc, made, place, name, part)?)?;
    }
    Ok(issuers)
}

/// The issuers under keywords in the record at a place (Zoe): `BadArgs` with the place, `BadKeyword` with the first
/// name that is none, `WrongObject` with the place.
#[tactic(auto, using(ertp_calls::proofs::HandedFields::issuers_known, ertp_calls::proofs::HandedFields::names_known), unfolding(rules::specs::Zoe::issuers_at, refusals::specs::Outcomes::bind))]
pub fn issuers_at(
    alloc: Global,
    world: &World,
    place: u32,
    args: &[Data],
) -> Result<Vec<Issuer>, Stop>
    requires place { 1 ≤ place }
    requires handed { AreHanded (world_of world.now) (trees args.now) }
    ensures { Gives (λ is. is.items) result (issuers_at place (trees args.now)) }
{
    let fields = record_at(place, args)?;
    check_names(alloc, fields)?;
    issuers_of(alloc, world.registers.brands.made(), place, fields)
}

/// Adds a copy of an issuer, last, whose keyword is free and for which there is room.
fn enter(alloc: Global, made: &mut IssuerRecord, issuer: &Issuer) -> Result<(), AllocError>
    requires free { brand_under issuer.now.keyword made.old ≡ None }
    requires room { length made.old < most_issuers }
    ensures { OnOk result (made.new ≡ made.old ++ issuer.now ∷ []) }
{
    let keyword = issuer.keyword.copy(alloc)?;
    match made.add(keyword, issuer.brand) {
        Ok(()) => Ok(()),
        Err((_, IssuerFault::NoMemory)) => Err(AllocError),
        Err((_, IssuerFault::KeywordTaken)) => unreachable!(),
        Err((_, IssuerFault::Limit)) => unreachable!(),
    }
}

/// An issuer record of issuers that can stand in one.
#[tactic(auto, using(brands::proofs::IssuersKeyed::free_before))]
pub fn record_of(alloc: Global, issuers: &[Issuer]) -> Result<IssuerRecord, AllocError>
    requires { AreIssuers issuers.now }
    ensures { IfOk result (λ made. made ≡ issuers.now) }
{
    let mut made = IssuerRecord::new(alloc);
    for issuer in issuers {
        enter(alloc, &mut made, issuer)?;
    }
    Ok(made)
}
