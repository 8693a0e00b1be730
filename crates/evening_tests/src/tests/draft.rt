//! An evening of three pairs, as it was written by hand from the first words of ChaCha20 under a key of zeros.
use arrayvec::{ArrayString, ArrayVec};
use bridge_cards::Scoring;
use bridge_config::read_config;
use bridge_movement::NamedMovement;
use evening_draft::{
    PairNames, WishWords, Wishes, ascii_name, date_at, draft, draft_evening, player_name,
    read_names, read_seed, shown_name, write_config, write_names_fault,
};

/// A text inline.
fn inline<const N: usize>(text: &str) -> ArrayString<N> {
    let mut inline = ArrayString::new();
    let _ = inline.try_push_str(text);
    inline
}

/// What is wished for.
fn wishes(movement: NamedMovement) -> Wishes {
    Wishes {
        movement,
        boards: 24,
        scoring: Scoring::MatchPoints,
        event: inline("Club-Night"),
        site: inline("Town-Hall"),
        date: inline("2026.03.14"),
        seed: [0; 32],
    }
}

/// A pair of two names.
fn pair(first: &str, second: &str) -> PairNames {
    PairNames {
        first: inline(first),
        second: inline(second),
    }
}

const EVENING: &str = "EVENT Club-Night
SITE Town-Hall
DATE 2026.03.14
SCORING MP
BOARDS 3
MOVEMENT 2 1 2 3 2
ROW 1 1 1 3 1
ROW 1 2 2 0 2
DIRECTOR 317185654
PAIR 1 Jose.Garcia 719978656 A.Berger 783509331
PAIR 2 Player2a 488700093 Zoe 551775904
PAIR 3 Lise.Muller 838229160 Bob 739548555
";

/// The names of the evening's pairs.
fn names() -> [PairNames; 3] {
    [
        pair("José García", "A. Berger"),
        pair("Άννα", "Zoë"),
        pair("Lise Müller", "Bob"),
    ]
}

#[test]
fn three_pairs_of_a_mitchell(rt: HostRuntime) {
    let drafted = draft(&names(), &wishes(NamedMovement::Mitchell));
    let mut written = ArrayVec::<u8, 1024>::new();
    if let Ok(config) = &drafted {
        let _ = write_config(config, &mut written);
    }
    assert!(&rt;
        written.as_slice() == EVENING.as_bytes(),
        "{:?}",
        str::from_utf8(written.as_slice())
    );
    assert!(&rt; read_config(written.as_slice()).is_ok());
}

#[test]
fn names_in_ascii(rt: HostRuntime) {
    static ROWS: [(&str, &str); 8] = [
        ("Jørgen Åse", "Jorgen.Ase"),
        ("Łukasz Żółć", "Lukasz.Zolc"),
        ("ÆGIR Þór Straußenberger", "AEGIR.Thor.Straussenberg"),
        ("ǼØǾ Đặng ıĸ", "AEOO.Dang.iq"),
        ("ｆｕｌｌ ﬁ ①", "full.fi.1"),
        (" -x-", "x"),
        ("李小龍", "Player"),
        (
            "Wolfeschlegelsteinhausenbergerdorff",
            "Wolfeschlegelsteinhausen",
        ),
    ];
    for (name, ascii) in &ROWS {
        let brought = ascii_name(name);
        assert!(&rt; brought.as_str() == *ascii, "{brought}");
    }
    assert!(&rt; player_name("李小龍", 24, false).as_str() == "Player24b");
    assert!(&rt; player_name("李 Li", 24, false).as_str() == "Li");
}

const LIST: &str = "# Thursday\n\n José García & A. Berger\r\nΆννα\tZoë\nLise Müller&Bob";

#[test]
fn a_list_of_three_pairs(rt: HostRuntime) {
    let read = read_names(LIST.as_bytes());
    assert!(&rt; read.is_ok_and(|pairs| pairs.as_slice() == names().as_slice()));
}

/// What is written of the fault of a list.
fn words_of(list: &[u8]) -> ArrayVec<u8, 256> {
    let mut written = ArrayVec::<u8, 256>::new();
    if let Err(fault) = read_names(list) {
        let _ = write_names_fault(fault, &mut written);
    }
    written
}

#[test]
fn lists_with_a_fault(rt: HostRuntime) {
    static ROWS: [(&[u8], &str); 8] = [
        (b"A & B\nC\n", "line 2\n"),
        (b"A & B\nC & D\n", "line 3\n"),
        (b"A & B\nC & \n", "line 2\n"),
        (b"A & B & C\n", "line 1\n"),
        (b"A & B\0\n", "line 1\n"),
        (b"A & \xFF\n", "line 1\n"),
        // U+202E
        (b"A & \xE2\x80\xAEB\n", "line 1\n"),
        (
            b"A & 12345678901234567890123456789012345678901\n",
            "line 1\n",
        ),
    ];
    for (list, line) in &ROWS {
        let words = words_of(list);
        assert!(&rt;
            words.starts_with(line.as_bytes()),
            "{:?}",
            str::from_utf8(words.as_slice())
        );
    }
}

#[test]
fn a_list_of_too_many_lines(rt: HostRuntime) {
    let mut list = ArrayVec::<u8, 1200>::new();
    for _ in 0..1200 {
        let _ = list.try_push(b'\n');
    }
    let words = words_of(list.as_slice());
    assert!(&rt;
        words.starts_with(b"line 1000\n"),
        "{:?}",
        str::from_utf8(words.as_slice())
    );
}

/// Whether the evening of so many pairs is drafted, and is read as it was written.
fn is_read_again(count: usize, movement: NamedMovement) -> bool {
    let pairs = [pair("A", "B"); 24];
    let Some(names) = pairs.as_slice().get(..count) else {
        return false;
    };
    let mut written = ArrayVec::<u8, 8192>::new();
    if let Ok(config) = &draft(names, &wishes(movement)) {
        let _ = write_config(config, &mut written);
    }
    read_config(written.as_slice()).is_ok()
}

#[test]
fn evenings_of_each_number_of_pairs(rt: HostRuntime) {
    for count in 0..25 {
        let mitchell = is_read_again(count, NamedMovement::Mitchell);
        let howell = is_read_again(count, NamedMovement::Howell);
        assert!(&rt; mitchell == (3 <= count), "{count}");
        assert!(&rt; howell == (3..=12).contains(&count), "{count}");
    }
}

#[test]
fn dates_of_days(rt: HostRuntime) {
    static ROWS: [(u64, Option<&str>); 6] = [
        (0, Some("1970.01.01")),
        (951_782_400, Some("2000.02.29")),
        (1_773_532_799, Some("2026.03.14")),
        (1_773_532_800, Some("2026.03.15")),
        (253_402_300_799, Some("9999.12.31")),
        (253_402_300_800, None),
    ];
    for (seconds, date) in &ROWS {
        let told = date_at(*seconds);
        assert!(&rt;
            told.as_ref().map(|text| text.as_str()) == *date,
            "{seconds}"
        );
    }
}

#[test]
fn an_evening_of_words(rt: HostRuntime) {
    let digits = "00000000000000000000000000000000000000000000000000000000000000fF";
    let seed = read_seed(digits).unwrap_or([1; 32]);
    assert!(&rt; seed[0] == 0 && seed[31] == 255);
    assert!(&rt; read_seed("0").is_none());
    let words = WishWords {
        movement: None,
        boards: 24,
        scoring: Scoring::MatchPoints,
        event: "Club-Night",
        site: "Town-Hall",
        date: "2026.03.14",
        seed: [0; 32],
    };
    // Three pairs play a Howell of two tables: each meets the others once, and sits out once.
    let rounds = draft_evening(&names(), &words).map(|config| config
        .fields()
        .movement
        .shape()
        .rounds);
    assert!(&rt; rounds == Ok(3));
    let mitchell = WishWords {
        movement: Some(NamedMovement::Mitchell),
        ..words
    };
    let mut written = ArrayVec::<u8, 1024>::new();
    if let Ok(config) = &draft_evening(&names(), &mitchell) {
        let _ = write_config(config, &mut written);
    }
    assert!(&rt; written.as_slice() == EVENING.as_bytes());
}

#[test]
fn names_that_are_shown(rt: HostRuntime) {
    let names = names();
    assert!(&rt; shown_name(Some(names.as_slice()), &[], 1, true) == "José García");
    assert!(&rt; shown_name(Some(names.as_slice()), &[], 3, false) == "Bob");
    assert!(&rt; shown_name(Some(names.as_slice()), &[], 4, false).is_empty());
    assert!(&rt; shown_name(None, &[], 1, true).is_empty());
}
