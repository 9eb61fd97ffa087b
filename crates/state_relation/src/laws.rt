//! A law of views: the function carries it as its clause, and does nothing.

ghost use Rattle.state_relation.specs.Views.{ViewsShowTheSame};

/// What is seen of a trace by views is what those outside see by the meaning.
pub fn views_show_the_same()
    ensures { ViewsShowTheSame }
{}
