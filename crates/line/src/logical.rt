// The logical line under the cursor: a screen, and the span of the cursor's row.
ghost use Rattle.std.specs.Prelude.{◌≡◌};

use crate::span::{Span, span_at};
use grid::head::Head;
use grid::screen::Screen;
use std::marker::Model;

#[derive(Drop)]
pub struct Line<'a> {
    pub screen: &'a Screen<'a>,
    pub span: Span,
}

impl<'a> Model for Line<'a> {
    ghost use Rattle.grid.specs.Screen.{Screen};
    ghost use Rattle.line.specs.Given.{SpanOf};

    ghost Value = { Screen };

    ghost view = { λ x. x.screen.now };

    ghost invariant = { λ x. SpanOf x.screen.now x.screen.now.head.cursor.row x.span.start x.span.end };
}

impl<'a> Line<'a> {
    pub fn under_cursor(screen: &'a Screen<'a>) -> Line<'a>
        ensures { result ≡ screen.now }
    {
        Line {
            screen,
            span: span_at(screen, screen.head.cursor.row),
        }
    }

    // The screen's head.
    pub fn head(&self) -> Head
        ensures { result ≡ self.now.head }
    {
        let s = self.screen;
        s.head
    }
}
