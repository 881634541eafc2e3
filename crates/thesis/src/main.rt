//! The thesis' fourteen examples on Article.dtd and its sample document: the number of each call, the text after it.
#![tactic(auto)]

mod article;
mod calls;
mod examples;

fn main() {
    let start = article::article();
    examples::one_and_two(start);
    examples::three(start);
    examples::four(start);
    examples::five(start);
    examples::six_and_seven(start);
    examples::eight(start);
    examples::nine_and_ten(start);
    examples::eleven_and_twelve(start);
    examples::thirteen_and_fourteen(start);
}
