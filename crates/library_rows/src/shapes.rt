//! What calendar values say beside their years.
use crate::page::Page;
use timex_value::{Part, Shape};

/// Prints how fine a value is, and its fields from the largest on.
pub fn print_shape(page: &mut Page, shape: Shape) {
    match shape {
        Shape::Year => page.text(", a year"),
        Shape::Decade => page.text(", a decade"),
        Shape::Century => page.text(", a century"),
        Shape::Half { half } => print_part(page, "half", half),
        Shape::Quarter { quarter } => print_part(page, "quarter", quarter),
        Shape::Month { month } => print_part(page, "month", month),
        Shape::Week { week } => print_part(page, "week", week),
        Shape::Weekday { week, day } => {
            print_part(page, "week", week);
            print_part(page, "day of the week", day);
        }
        Shape::Day { month, day } => print_day(page, month, day),
        Shape::Hour { month, day, hour } => {
            print_day(page, month, day);
            print_part(page, "hour", hour);
        }
        Shape::Minute {
            month,
            day,
            hour,
            minute,
        } => {
            print_day(page, month, day);
            print_part(page, "hour", hour);
            print_part(page, "minute", minute);
        }
        Shape::Second {
            month,
            day,
            hour,
            minute,
            second,
        } => {
            print_day(page, month, day);
            print_part(page, "hour", hour);
            print_part(page, "minute", minute);
            print_part(page, "second", second);
        }
    }
}

fn print_day(page: &mut Page, month: Part, day: Part) {
    print_part(page, "month", month);
    print_part(page, "day", day);
}

fn print_part(page: &mut Page, name: &str, part: Part) {
    page.text(", ");
    match part {
        Part::Known(number) => page.named(name, u32::from(number)),
        Part::Unknown => {
            page.text(name);
            page.text(" X");
        }
    }
}
