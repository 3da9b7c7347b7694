// The kind of an event, by document 01's table of events (document 02, No. 6). Nothing else in the product decides a kind.
#![tactic(auto)]

ghost use Rattle.std.specs.Prelude.{◌≡◌, ◌≤◌};
ghost use Rattle.call_kinds.specs.Kinds.{KindByTable, is_query, kind_number, kind_of};

// What an event is, by the table; `None` where its X is of no row.
#[derive(Clone, Copy, Debug, PartialEq, Eq)]
pub enum Kind {
    Query,
    Opens,
    Closes,
    // Kept: a promise needs it: the documents count none as the fourth kind, which leaves the language by the number 3.
    None,
}

// The kind of an event from its X and the number of junctions alone, by cases in the table's order.
// With at most 4,096 junctions it is the one that the table's first column gives.
pub fn kind_of(x: u16, n: usize) -> Kind
    ensures value { result ≡ kind_of n x }
    ensures kind_by_table { n ≤ 4096 → KindByTable n x result }
{
    if (x as usize) < n {
        return Kind::Query;
    }
    if x == 65535 {
        return Kind::Opens;
    }
    if x == 65534 {
        return Kind::Closes;
    }
    Kind::None
}

// Internal: whether an event with this X is a query.
#[tactic(auto, unfolding(crate::specs::Kinds::is_query))]
pub fn is_query(x: u16, n: usize) -> bool
    ensures { result ≡ is_query (kind_of n x) }
{
    matches!(kind_of(x, n), Kind::Query)
}

// The number of a kind where it leaves the language.
impl From<Kind> for u32 {
    ghost from_gives = { λ kind number. number ≡ kind_number kind };

    #[tactic(auto, unfolding(crate::specs::Kinds::kind_number))]
    fn from(kind: Kind) -> u32 {
        match kind {
            Kind::Query => 0,
            Kind::Opens => 1,
            Kind::Closes => 2,
            Kind::None => 3,
        }
    }
}

// Internal: the number of a kind where it leaves the language.
pub fn kind_number(kind: Kind) -> u32
    ensures { result ≡ kind_number kind }
{
    u32::from(kind)
}
