//! What a run did, as `scene_trace` tells it: put together it gives each scene, and it has its lines.
mod lines;
mod together;
