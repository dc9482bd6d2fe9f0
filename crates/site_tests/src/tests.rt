mod fields;
mod texts;
