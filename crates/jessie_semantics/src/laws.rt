//! What the rules of evaluation mean, of every module, function, list of arguments, state, meter
//! and list of replies: functions that do nothing, whose contracts are the laws.
ghost use Rattle.std.specs.Prelude.{ℕ, List, length};
ghost use Rattle.host_data.specs.Tree.{Tree};
ghost use Rattle.jessie_values.specs.jessie_grammar.Syntax.{Routine};
ghost use Rattle.jessie_semantics.specs.Play.{Exchange, Play, Reply, after};
ghost use Rattle.jessie_semantics.specs.Rules.{play};
ghost use Rattle.jessie_semantics.specs.Keeping.{AllHave, RepliesHave, NextHas, Within, Handed, handed};
ghost use Rattle.jessie_semantics.specs.Runs.{Path};
ghost use Rattle.jessie_semantics.specs.Charges.{charges, Fits};
ghost use Rattle.jessie_semantics.specs.Form.{InForm};
ghost use Rattle.jessie_semantics.specs.Naming.{HasFieldNames, IsFieldName, RoutinesNamed, RoutinesWrite};

/// Each object in the next call of the host, or in the outcome and the new state values, stands in the
/// arguments, the old state values or an earlier answer; and there is one state value for each variable.
pub fn objects_were_handed()
    ensures { (rs : List Routine) (variables : List (List ℕ)) (f : List ℕ) (vs values : List Tree) (meter : ℕ) (answers : List Reply)
        → NextHas (Within (Handed (handed vs values answers))) (length variables) (after (play rs variables f vs values meter) answers) }
{}

/// Wherever an evaluation stands, whatever the host has answered: what its calls cost and their answers
/// take, the next call's cost too, is within the meter, or the meter is spent.
pub fn calls_fit_the_meter()
    ensures { (rs : List Routine) (variables : List (List ℕ)) (f : List ℕ) (vs values : List Tree)
        (meter : ℕ) (asked : List Exchange) (rest : Play)
        → Path (play rs variables f vs values meter) asked rest → Fits meter (charges asked) rest }
{}

/// Where arguments, state values and answers have the fields of their records in byte order, each name
/// once, and nest at most 32 deep, so does all that the host is asked next, or the outcome and the new
/// state values.
pub fn data_stays_in_form()
    ensures { (rs : List Routine) (variables : List (List ℕ)) (f : List ℕ) (vs values : List Tree) (meter : ℕ) (answers : List Reply)
        → AllHave InForm vs → AllHave InForm values → RepliesHave InForm answers → NextHas InForm (length variables) (after (play rs variables f vs values meter) answers) }
{}

/// Where the text names the fields of its records, and its functions, as fields can be named, and arguments, state
/// values and answers have such names, so has all that the host is asked next, or the outcome and the new state
/// values.
pub fn names_stay_in_form()
    ensures { (rs : List Routine) (variables : List (List ℕ)) (f : List ℕ) (vs values : List Tree) (meter : ℕ) (answers : List Reply)
        → RoutinesWrite IsFieldName rs → RoutinesNamed IsFieldName rs → AllHave HasFieldNames vs → AllHave HasFieldNames values → RepliesHave HasFieldNames answers
        → NextHas HasFieldNames (length variables) (after (play rs variables f vs values meter) answers) }
{}
