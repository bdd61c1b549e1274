//! The codes of refusals.

ghost use Rattle.std.specs.Prelude.{◌≡◌};
ghost use Rattle.std.specs.List.{list_any};
ghost use Rattle.std.specs.Str.{bytes_eq};
ghost use Rattle.turn_rows.specs.Form.{refusal_codes};

const REFUSAL_CODES: [&str; 39] = [
    "BadLine",
    "BadField",
    "BadLabel",
    "BadKeyword",
    "UnknownName",
    "NameTaken",
    "Pending",
    "Broken",
    "WrongObject",
    "NoMethod",
    "BadArgs",
    "LocalOnly",
    "BadValue",
    "WrongBrand",
    "Overlap",
    "NotEnough",
    "TooMuch",
    "DeadPayment",
    "RepeatedPayment",
    "WrongAmount",
    "NotInvitation",
    "Closed",
    "KeywordMismatch",
    "BadExit",
    "NotOnDemand",
    "SeatExited",
    "NotConserved",
    "NotOfferSafe",
    "RepeatedSeat",
    "StagedLeftOut",
    "OneSeat",
    "WrongInstance",
    "KeywordTaken",
    "Backwards",
    "PromiseCycle",
    "Limit",
    "TextRefused",
    "Spent",
    "BadStep",
];

fn is_one_of(codes: &[&str], code: &str) -> bool
    ensures { result ≡ list_any (λ known. bytes_eq code.now known.now) codes.now }
{
    codes.iter().any(|known| code == *known)
}

/// Whether it is the code of a refusal.
pub fn is_refusal_code(code: &str) -> bool
    ensures { result ≡ list_any (bytes_eq code.now) refusal_codes }
{
    is_one_of(&REFUSAL_CODES, code)
}
