//! The fourteen examples, each with its number and the text after it. Each function starts from the article.
use super::{article, calls};
use play::Play;
use rules::{AttributeSort, Kind, Quantifier};

pub fn one_and_two(start: Play) {
    play::tell(b"\n1. create middle EMPTY:");
    let made = calls::create_definition(start, b"middle", Kind::Empty);
    made.show_after();
    play::tell(b"\n2. destroy it:");
    let gone = made.after(|store, out| formstore::destroy_definition(store, article::MIDDLE, out));
    gone.show_after();
    start.tell_same(&gone);
}

fn with_middle(start: Play) -> Play {
    let made = calls::create_definition(start, b"middle", Kind::Pcdata);
    calls::insert_element(
        made,
        article::NAME,
        &[1],
        article::MIDDLE,
        Quantifier::Qmark,
        b"",
    )
}

pub fn three(start: Play) {
    play::tell(b"\n3. create middle PCDATA, and insert it in name at 1, QMARK:");
    with_middle(start).show_after();
}

pub fn four(start: Play) {
    play::tell(b"\n4. remove editor at 2 in monograph:");
    let left = start.after(|store, out| {
        formstore::remove_element(store, article::MONOGRAPH, &[2], out)
    });
    left.show_after();
}

pub fn five(start: Play) {
    play::tell(b"\n5. author at 2 in article, PLUS to NONE:");
    let none = u32::from(u8::from(Quantifier::None));
    let once = start.after(|store, out| {
        formstore::change_quantifier(store, article::ARTICLE, &[2], none, b"", out)
    });
    once.show_after();
}

pub fn six_and_seven(start: Play) {
    play::tell(b"\n6. convert the member at 2 in article into a LIST:");
    let grouped = calls::convert_to_list(start, article::ARTICLE, &[2]);
    grouped.show_after();
    play::tell(b"\n7. flatten it:");
    let flat = grouped.after(|store, out| {
        formstore::flatten_group(store, article::ARTICLE, &[2], out)
    });
    flat.show_after();
    start.tell_same(&flat);
}

pub fn eight(start: Play) {
    play::tell(b"\n8. the group at 1 in related, STAR to QMARK:");
    let left = calls::change_group_quantifier(start, article::RELATED, &[1], Quantifier::Qmark);
    left.show_after();
    start.tell_same(&left);
}

pub fn nine_and_ten(start: Play) {
    play::tell(b"\n9. add published REQUIRED \"TRUE\" to article:");
    let required = AttributeSort::Required;
    let added = calls::add_attribute(start, article::ARTICLE, b"published", required, b"TRUE");
    added.show_after();
    play::tell(b"\n10. destroy it:");
    let gone = added.after(|store, out| formstore::destroy_attribute(store, 0, out));
    gone.show_after();
}

pub fn eleven_and_twelve(start: Play) {
    play::tell(b"\n11. add primary IMPLIED to author, and set TRUE and FALSE:");
    let implied = AttributeSort::Implied;
    let added = calls::add_attribute(start, article::AUTHOR, b"primary", implied, b"");
    let first = calls::set_attribute(added, 4, 1, b"TRUE");
    let both = calls::set_attribute(first, 11, 1, b"FALSE");
    both.show_after();
    play::tell(b"\n12. destroy the second row:");
    let one = both.after(|store, out| formstore::destroy_attribute_row(store, 11, 1, out));
    one.show_after();
}

pub fn thirteen_and_fourteen(start: Play) {
    play::tell(b"\n13. as 3, then add middle \"S\" as child 1 of the first name:");
    let added = calls::add_element(with_middle(start), 6, 1, article::MIDDLE, b"S");
    added.show_after();
    play::tell(b"\n14. destroy it:");
    let gone = added.after(|store, out| formstore::destroy_element(store, 24, out));
    gone.show_after();
}
