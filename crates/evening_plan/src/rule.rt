//! What a line must be, in words.
ghost use Rattle.std.specs.Prelude.{◌≡◌};
ghost use Rattle.evening_plan.specs.Rule.{movement_rule, rule_of};

use crate::line_kind::LineKind;

/// The sixth line, in either form.
fn movement_rule() -> &'static str
    ensures { result.now ≡ movement_rule }
{
    "due: MITCHELL and the number of tables, or MOVEMENT and the numbers of tables, rounds, sets and\n  pairs, and of the last pair of the first field\n  numbers: 2 to 12 tables, 1 to 12 rounds, 1 to 12 sets, 2 to 24 pairs; the last is one of these\n"
}

/// What the line must be, in one to three lines.
pub fn rule_of(kind: LineKind) -> &'static str
    ensures { result.now ≡ rule_of kind }
{
    match kind {
        LineKind::Event =>
            "due: EVENT and the event's name\n  name: letters, digits, . - _ alone, 1 to 24 of them\n",
        LineKind::Site =>
            "due: SITE and the name of where it is played\n  name: letters, digits, . - _ alone, 1 to 24 of them\n",
        LineKind::Date =>
            "due: DATE and the date, as DATE 2026.03.14\n  date: four, two and two digits; the month from 01 to 12, the day from 01 to 31\n",
        LineKind::Scoring => "due: SCORING MP for matchpoints, or SCORING IMP for IMPs\n",
        LineKind::Boards => "due: BOARDS and the number of boards in a set, 1 to 3\n",
        LineKind::Mitchell | LineKind::Movement => movement_rule(),
        LineKind::Row =>
            "due: ROW, its round, its table, the pair North and South, the pair East and West, and the set\n  rows: one for each table in each round, by round and then by table; pair 0 is nobody\n",
        LineKind::Director =>
            "due: DIRECTOR and the director's key\n  key: a number from 0 to 4294967295; none stands twice\n",
        LineKind::Pair(_) =>
            "due: PAIR, the pair's number, and the name and key of each of its two players\n  name: letters, digits, . - _ alone, 1 to 24 of them\n  key: a number from 0 to 4294967295; none stands twice\n",
        LineKind::End =>
            "due: nothing, since the last pair's line is the last; no empty line follows either\n",
    }
}
