//! The slips of a small evening, as they were written by hand.
use arrayvec::ArrayVec;
use bridge_config::{Config, read_config};
use evening_draft::PairNames;
use evening_slips::{SlipSheet, write_slips};
use page_layout::Format;

const EVENING: &str = "EVENT Club-Night
SITE Town-Hall
DATE 2026.03.14
SCORING MP
BOARDS 3
MOVEMENT 2 1 2 3 2
ROW 1 1 1 3 1
ROW 1 2 2 0 2
DIRECTOR 317185654
PAIR 1 Jose.Garcia 719978656 A.Berger 783509331
PAIR 2 Player 488700093 Zoe 551775904
PAIR 3 Lise.Muller 838229160 Bob 739548555
";

const SLIPS: &str = "- - - - - - - - - - - - - - - - - - - - - - - -

Director

Key 317 185 654
http://club:4000
- - - - - - - - - - - - - - - - - - - - - - - -

Jose.Garcia
Pair 1
Table 1, North

Key 719 978 656
http://club:4000
- - - - - - - - - - - - - - - - - - - - - - - -

A.Berger
Pair 1
Table 1, South

Key 783 509 331
http://club:4000
- - - - - - - - - - - - - - - - - - - - - - - -

Player
Pair 2
Sits out in round 1

Key 488 700 093
http://club:4000
- - - - - - - - - - - - - - - - - - - - - - - -

Zoe
Pair 2
Sits out in round 1

Key 551 775 904
http://club:4000
- - - - - - - - - - - - - - - - - - - - - - - -

Lise.Muller
Pair 3
Table 1, East

Key 838 229 160
http://club:4000
- - - - - - - - - - - - - - - - - - - - - - - -

Bob
Pair 3
Table 1, West

Key 739 548 555
http://club:4000
";

/// The evening.
fn evening() -> Option<Config> {
    read_config(EVENING.as_bytes()).ok()
}

#[test]
fn slips_in_plain_text(rt: HostRuntime) {
    let sheet = SlipSheet {
        format: Format::Plain,
        address: Some("http://club:4000"),
    };
    let mut slips = ArrayVec::<u8, 8192>::new();
    if let Some(config) = evening() {
        let _ = write_slips(&config, None, &sheet, &mut slips);
    }
    assert!(&rt;
        slips.as_slice() == SLIPS.as_bytes(),
        "{:?}",
        str::from_utf8(slips.as_slice())
    );
}

/// A pair of two names.
fn pair(first: &str, second: &str) -> PairNames {
    let mut pair = PairNames::default();
    let _ = pair.first.try_push_str(first);
    let _ = pair.second.try_push_str(second);
    pair
}

/// Whether the text has this part.
fn has(text: &[u8], part: &str) -> bool {
    match str::from_utf8(text) {
        Ok(text) => text.contains(part),
        Err(_) => false,
    }
}

#[test]
fn slips_with_names_as_people_write_them(rt: HostRuntime) {
    let names = [
        pair("José <García>", "A. Berger"),
        pair("Άννα", "Zoë"),
        pair("李小龍", "Bob"),
    ];
    let sheet = SlipSheet {
        format: Format::Html,
        address: None,
    };
    let mut slips = ArrayVec::<u8, 8192>::new();
    if let Some(config) = evening() {
        let _ = write_slips(&config, Some(names.as_slice()), &sheet, &mut slips);
    }
    let slips = slips.as_slice();
    let first = "<section class=\"slip\">
<h2>José &lt;García&gt;</h2>
<p>Pair 1</p>
<p>Table 1, North</p>
<h3>Key 719 978 656</h3>
</section>
";
    assert!(&rt; has(slips, first), "{:?}", str::from_utf8(slips));
    assert!(&rt;
        has(
            slips,
            "<h2>Άννα</h2>\n<p>Pair 2</p>\n<p>Sits out in round 1</p>"
        )
    );
    assert!(&rt; has(slips, "<h2>李小龍</h2>\n<p>Pair 3</p>\n<p>Table 1, East</p>"));
    for word in ["Jose.Garcia", "http", "<script", "src="] {
        assert!(&rt; !has(slips, word), "{word}");
    }
}
