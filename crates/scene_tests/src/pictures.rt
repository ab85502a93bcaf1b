//! Plans and pages, as `scene_pictures` and `scene_trace` make them of documents.
mod pages;
mod rows;
mod texts;
