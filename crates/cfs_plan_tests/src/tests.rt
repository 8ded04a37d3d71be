mod cases;
mod store;
