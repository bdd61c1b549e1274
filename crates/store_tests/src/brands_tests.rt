use actors::brands_lib::Brands;
use actors::brands_lib::issuer_record::{IssuerFault, IssuerRecord};
use escrow::amount_math_lib::Kind;
use escrow::host_text_lib::keyword::Keyword;
use escrow::host_text_lib::text::Text;
use std::alloc::Global;
use std::process::Abort;

#[derive(Clone, Copy)]
enum Step {
    Add(&'static str, Kind),
    Forget,
    Back,
}

/// A step, the number of the brand that it adds, and how many brands there are then.
struct Taken {
    step: Step,
    number: Option<u16>,
    made: u32,
}

/// The number of the brand that is added; none where it can't be.
fn added(alloc: Global, brands: &mut Brands, name: &str, kind: Kind) -> Option<u16> {
    let name = Text::from_str(alloc, name).ok()?;
    match brands.add(name, kind) {
        Ok(number) => Some(number),
        Err(_) => None,
    }
}

fn take(alloc: Global, brands: &mut Brands, step: Step) -> Option<u16> {
    match step {
        Step::Add(name, kind) => return added(alloc, brands, name, kind),
        Step::Forget => brands.forget(),
        Step::Back => brands.back(),
    }
    None
}

const TURNS: &[Taken] = &[
    Taken {
        step: Step::Add("moola", Kind::Nat),
        number: Some(1),
        made: 2,
    },
    Taken {
        step: Step::Forget,
        number: None,
        made: 2,
    },
    Taken {
        step: Step::Add("simoleans", Kind::Nat),
        number: Some(2),
        made: 3,
    },
    Taken {
        step: Step::Back,
        number: None,
        made: 2,
    },
    Taken {
        step: Step::Add("nft", Kind::Bag),
        number: Some(2),
        made: 3,
    },
];

/// Whether a brand was made, with this name and kind, and is that of its issuer.
fn is_brand(brands: &Brands, brand: u16, name: &str, kind: Kind) -> bool {
    if brand as u32 >= brands.made() {
        return false;
    }
    brands.name(brand).as_str() == name
        && brands.kind(brand) == kind
        && brands.brand_of_issuer(brand) == brand
}

/// Whether the invitation brand stands first, then moola and the last that was added.
fn are_brands(brands: &Brands) -> bool {
    is_brand(brands, 0, "Zoe Invitation", Kind::Set)
        && is_brand(brands, 1, "moola", Kind::Nat)
        && is_brand(brands, 2, "nft", Kind::Bag)
}

fn are_taken(alloc: Global, brands: &mut Brands, turns: &[Taken]) -> bool {
    for taken in turns {
        let number = take(alloc, brands, taken.step);
        if number != taken.number || brands.made() != taken.made {
            return false;
        }
    }
    true
}

#[test]
fn a_turns_brands_are_undone_or_kept(rt: HostRuntime) {
    let mut brands = Brands::new(rt.alloc()).expect(&rt, "memory for a brand");
    let first = brands.made();
    let taken = are_taken(rt.alloc(), &mut brands, TURNS);
    let there = are_brands(&brands);
    drop(brands);
    assert!(rt; first == 1 && taken && there);
}

/// Adds a brand under a keyword, and answers why it wasn't added.
fn fault(
    alloc: Global,
    issuers: &mut IssuerRecord,
    keyword: &str,
    brand: u16,
) -> Option<IssuerFault> {
    let Ok(keyword) = Keyword::read(alloc, keyword.as_bytes()) else {
        return Some(IssuerFault::NoMemory);
    };
    match issuers.add(keyword, brand) {
        Ok(()) => None,
        Err((_, fault)) => Some(fault),
    }
}

/// The brand under a keyword, or 0.
fn brand_under(alloc: Global, issuers: &IssuerRecord, keyword: &str) -> u16 {
    match Keyword::read(alloc, keyword.as_bytes()) {
        Ok(keyword) => issuers.get(&keyword).unwrap_or(0),
        Err(_) => 0,
    }
}

/// A keyword, a brand, why it isn't added, and how many keywords there are then.
const ADDED: &[(&str, u16, Option<IssuerFault>, usize)] = &[
    ("Asset", 1, None, 1),
    ("Price", 2, None, 2),
    ("Asset", 2, Some(IssuerFault::KeywordTaken), 2),
    ("Bid", 1, None, 3),
    ("Price", 2, Some(IssuerFault::KeywordTaken), 3),
];

fn are_added(alloc: Global, issuers: &mut IssuerRecord) -> bool {
    for (keyword, brand, why, len) in ADDED {
        let met = fault(alloc, issuers, keyword, *brand);
        if met != *why || issuers.len() != *len {
            return false;
        }
    }
    true
}

/// A copy of the record to which all were added.
fn copied(rt: &impl Abort, alloc: Global) -> IssuerRecord {
    let mut issuers = IssuerRecord::new(alloc);
    assert!(rt; are_added(alloc, &mut issuers));
    issuers.copy().expect(rt, "memory for a record")
}

/// The brands under the three keywords, and under one that isn't there.
fn brands_under(alloc: Global, issuers: &IssuerRecord) -> [u16; 4] {
    [
        brand_under(alloc, issuers, "Asset"),
        brand_under(alloc, issuers, "Price"),
        brand_under(alloc, issuers, "Bid"),
        brand_under(alloc, issuers, "Want"),
    ]
}

fn stands_third(issuers: &IssuerRecord, keyword: &str) -> bool {
    let order = issuers.issuers();
    order.len() == 3 && order[2].keyword.as_str() == keyword
}

#[test]
fn a_keyword_stands_for_one_brand(rt: HostRuntime) {
    let issuers = copied(&rt, rt.alloc());
    let under = brands_under(rt.alloc(), &issuers);
    let has = issuers.has_brand(2) && !issuers.has_brand(3);
    let order = stands_third(&issuers, "Bid");
    drop(issuers);
    assert!(rt; under == [1, 2, 1, 0] && has && order);
}

/// What comes of the addition of a further keyword.
fn further(
    rt: &impl Abort,
    alloc: Global,
    issuers: &mut IssuerRecord,
    number: u16,
) -> Option<IssuerFault> {
    let keyword = format!(in alloc; "K{number}").expect(rt, "memory for a keyword");
    fault(alloc, issuers, keyword.as_str(), number)
}

/// A record of 64 keywords.
fn full(rt: &impl Abort, alloc: Global) -> IssuerRecord {
    let mut issuers = IssuerRecord::new(alloc);
    for number in 0..64_u16 {
        assert!(rt; further(rt, alloc, &mut issuers, number).is_none());
    }
    issuers
}

#[test]
fn a_record_has_at_most_64_keywords(rt: HostRuntime) {
    let mut issuers = full(&rt, rt.alloc());
    let first = further(&rt, rt.alloc(), &mut issuers, 64);
    let second = further(&rt, rt.alloc(), &mut issuers, 65);
    let there = further(&rt, rt.alloc(), &mut issuers, 3);
    drop(issuers);
    assert!(rt; (first, second) == (Some(IssuerFault::Limit), Some(IssuerFault::Limit)));
    assert!(rt; there == Some(IssuerFault::KeywordTaken));
}
