//! Texts that the tests of several crates use.
#![tactic(auto)]

/// The file `examples/rows.txt`, word for word: a test is run where no file of the repository lies. Two tables, one round, one
/// board: pairs 1 and 3 at table 1, pairs 2 and 4 at table 2.
pub const TWO_TABLES: &str = "EVENT Club-Night
SITE Town-Hall
DATE 2026.03.14
SCORING MP
BOARDS 1
MOVEMENT 2 1 1 4 2
ROW 1 1 1 3 1
ROW 1 2 2 4 1
DIRECTOR 100
PAIR 1 Ann 11 Bob 12
PAIR 2 Cat 21 Dan 22
PAIR 3 Eve 31 Fay 32
PAIR 4 Gus 41 Hal 42
";

/// Lines of which each is accepted in a session of these tables: a suit for each hand, seven spades by North of pair 1, and
/// seven tricks of the highest cards; and at the other table four passes.
pub const SEVEN_TRICKS: &str =
    "DEAL 100 1 N:AKQJT98765432... .AKQJT98765432.. ..AKQJT98765432. ...AKQJT98765432
CALL 11 1 0 7S
CALL 31 1 1 PASS
CALL 12 1 2 PASS
CALL 32 1 3 PASS
CARD 31 1 0 HA
CARD 11 1 1 DA
CARD 32 1 2 CA
CARD 11 1 3 SA
CARD 11 1 4 SK
CARD 31 1 5 HK
CARD 11 1 6 DK
CARD 32 1 7 CK
CARD 11 1 8 SQ
CARD 31 1 9 HQ
CARD 11 1 10 DQ
CARD 32 1 11 CQ
CARD 11 1 12 SJ
CARD 31 1 13 HJ
CARD 11 1 14 DJ
CARD 32 1 15 CJ
CARD 11 1 16 ST
CARD 31 1 17 HT
CARD 11 1 18 DT
CARD 32 1 19 CT
CARD 11 1 20 S9
CARD 31 1 21 H9
CARD 11 1 22 D9
CARD 32 1 23 C9
CARD 11 1 24 S8
CARD 31 1 25 H8
CARD 11 1 26 D8
CARD 32 1 27 C8
CALL 21 1 0 PASS
CALL 41 1 1 PASS
CALL 22 1 2 PASS
CALL 42 1 3 PASS
";
