//! A small page, as it was written by hand in either format, and what no page may hold.
use page_layout::{
    Align, Column, Content, Format, Level, PageText, Section, push_heading, push_linked_row,
    push_page_end, push_page_start, push_paragraph, push_row, push_section_end, push_section_start,
    push_table_end, push_table_start, push_titles,
};

const COLUMNS: [Column; 3] = [
    Column {
        width: 5,
        align: Align::Right,
        content: Content::Words,
    },
    Column {
        width: 4,
        align: Align::Left,
        content: Content::Cards,
    },
    Column {
        width: 0,
        align: Align::Left,
        content: Content::Words,
    },
];

fn card(format: Format) -> PageText {
    let mut text = PageText::new();
    push_section_start(&mut text, format, Section::ScoreCard);
    push_heading(&mut text, format, Level::Sheet, b"Tim & \"Ann\"");
    push_table_start(&mut text, format);
    push_titles(&mut text, format, &COLUMNS, &[b"Score", b"Con", b"Side"]);
    push_row(&mut text, format, &COLUMNS, &[b"-50", b"4HXX", b"D's <x>"]);
    push_row(&mut text, format, &COLUMNS, &[b"1000000", b"3NT", b""]);
    push_table_end(&mut text, format);
    push_section_end(&mut text, format);
    push_page_end(&mut text, format);
    text
}

#[test]
fn a_card_in_either_format(rt: HostRuntime) {
    let plain = card(Format::Plain);
    let wanted =
        "\nTim & \"Ann\"\n  Score  Con   Side\n    -50  4HXX  D's <x>\n  1000000  3NT   \n\n";
    assert!(&rt; plain.as_slice() == wanted.as_bytes());

    let html = card(Format::Html);
    let wanted = "<section class=\"card\">
<h2>Tim &amp; &quot;Ann&quot;</h2>
<table>
<thead><tr><th scope=\"col\" class=\"r\">Score</th><th scope=\"col\">Con</th><th scope=\"col\">Side</th></tr></thead>
<tr><td class=\"r\">-50</td><td>4<span class=\"h\">&hearts;</span>XX</td><td>D&#39;s &lt;x&gt;</td></tr>
<tr><td class=\"r\">1000000</td><td>3NT</td><td></td></tr>
</table>
</section>
</body>
</html>
";
    assert!(&rt; html.as_slice() == wanted.as_bytes());
}

/// Whether the text has this word.
fn holds(text: &[u8], word: &[u8]) -> bool {
    !word.is_empty() && text.windows(word.len()).any(|part| part == word)
}

/// Words by which a page would ask for another file.
static WORDS_THAT_ASK: [&str; 6] = ["http", "url(", "@import", "<script", "src=", "href="];

#[test]
fn heads_of_pages_ask_for_nothing(rt: HostRuntime) {
    let mut plain = PageText::new();
    push_page_start(&mut plain, Format::Plain, b"Club");
    push_heading(&mut plain, Format::Plain, Level::Title, b"Club");
    push_paragraph(&mut plain, Format::Plain, b"MP");
    assert!(&rt; plain.as_slice() == b"Club\nMP\n".as_slice());

    let mut html = PageText::new();
    push_page_start(&mut html, Format::Html, b"Club");
    let head = html.as_slice();
    for word in &WORDS_THAT_ASK {
        let word = word.as_bytes();
        assert!(&rt; !holds(head, word), "{word:?}");
    }
    assert!(&rt; head.starts_with(b"<!doctype html>\n"));
    assert!(&rt; head.ends_with(b"<body>\n"));
}

#[test]
fn a_row_with_a_link(rt: HostRuntime) {
    let mut text = PageText::new();
    let targets = [b"".as_slice(), b"board-4", b""];
    let cells = [b"-50".as_slice(), b"4HXX", b"D's <x>"];
    push_linked_row(&mut text, &COLUMNS, &targets, &cells);
    let wanted =
        "<tr><td class=\"r\">-50</td><td><a href=\"#board-4\">4<span class=\"h\">&hearts;</span>XX</a></td><td>D&#39;s &lt;x&gt;</td></tr>\n";
    assert!(&rt; text.as_slice() == wanted.as_bytes());
}
